//! A host in memory of which some calls fail.
ghost use Rattle.std.specs.Prelude.{◌≡◌, ◌↔◌, IsTrue, IfOk, OnOk, OnErr, Some, Err};
ghost use Rattle.host_tree.specs.Acts.{sight, CanWrite, CanMake, CanSetMode, CanRemove, with_file, with_directory, with_link, with_mode, without, LosesPart};
ghost use Rattle.host_tree.specs.Entries.{at, has_below, IsHost};
ghost use Rattle.host_tree.specs.Faults.{HasHostCause};
ghost use Rattle.host_tree.specs.declared.fault.HostFault.TheVariants as fault;
ghost use Rattle.outside_core.specs.Failures.{planned, is_due, after_call};

use crate::caps::Caps;
use crate::fault::HostFault;
use crate::host::Host;
use crate::image::ImageHost;
use crate::modes::Mode;
use crate::paths::Path;
use crate::seen::Seen;
use doc_tree::Text;
use outside_core::Failures;
use std::alloc::Global;
use std::marker::Model;

/// A host in memory of which some calls fail, for trying what comes after a fault.
///
/// Looks and changes are counted together, from 1 on; [`Host::caps`] isn't counted. A call that is to fail changes
/// nothing but the counts. Contracts see what it holds, what it offers and its failures.
#[derive(Drop)]
pub struct FaultyHost {
    host: ImageHost,
    caps: Caps,
    failures: Failures,
}

impl Model for FaultyHost {
    ghost use Rattle.host_tree.specs.Faulty.{Faulty, faulty_code};

    ghost Value = { Faulty };

    ghost coded = { faulty_code };

    ghost view = { λ f. record { host = f.host; offers = f.caps; failures = f.failures } };
}

impl FaultyHost {
    /// A host that holds this image and offers this. It fails at the calls with these numbers.
    pub fn over(host: ImageHost, caps: Caps, failing: Vec<u64>) -> FaultyHost
        ensures { result ≡ record { host = host; offers = caps; failures = planned failing.items } }
    {
        FaultyHost {
            host,
            caps,
            failures: Failures::planned(failing),
        }
    }

    /// What it holds.
    pub fn image_host(&self) -> &ImageHost
        ensures { result.now ≡ self.now.host }
    {
        &self.host
    }

    /// What it holds, which is moved out.
    pub fn into_image_host(self) -> ImageHost
        ensures { result ≡ self.host }
    {
        let FaultyHost {
            host,
            caps: _,
            failures: _,
        } = self;
        host
    }
}

impl Host for FaultyHost {
    ghost tells = { λ f. Some f.host };

    ghost faults = { λ f. f.failures.faults };

    ghost offers = { λ f. f.offers };

    fn caps(&self) -> Caps {
        self.caps
    }

    fn look(&mut self, alloc: Global, path: &Path) -> Result<Seen, HostFault>
        ensures seen { IfOk result (λ seen. seen ≡ sight (has_below self.old.host path.now) (at self.old.host path.now)) }
        ensures host { OnOk result (IsHost self.old.host) }
        ensures kept { Some self.new.host ≡ Some self.old.host }
        ensures offers { self.new.offers ≡ self.old.offers }
        ensures cause { HasHostCause self.old.failures.faults self.new.failures.faults result }
        ensures due { (result ≡ Err fault.Failed) ↔ IsTrue (is_due self.old.failures) }
        ensures counted { self.new.failures ≡ after_call self.old.failures }
    {
        self.failures.call()?;
        self.host.look(alloc, path)
    }

    fn write_file(&mut self, alloc: Global, path: &Path, content: &Text) -> Result<(), HostFault>
        requires { CanWrite self.old.host path.now }
        ensures ok { OnOk result (Some self.new.host ≡ Some (with_file path.now content.now self.old.host)) }
        ensures err { OnErr result (Some self.new.host ≡ Some self.old.host) }
        ensures offers { self.new.offers ≡ self.old.offers }
        ensures cause { HasHostCause self.old.failures.faults self.new.failures.faults result }
        ensures due { (result ≡ Err fault.Failed) ↔ IsTrue (is_due self.old.failures) }
        ensures counted { self.new.failures ≡ after_call self.old.failures }
    {
        self.failures.call()?;
        self.host.write_file(alloc, path, content)
    }

    fn make_dir(&mut self, alloc: Global, path: &Path) -> Result<(), HostFault>
        requires { CanMake self.old.host path.now }
        ensures ok { OnOk result (Some self.new.host ≡ Some (with_directory path.now self.old.host)) }
        ensures err { OnErr result (Some self.new.host ≡ Some self.old.host) }
        ensures offers { self.new.offers ≡ self.old.offers }
        ensures cause { HasHostCause self.old.failures.faults self.new.failures.faults result }
        ensures due { (result ≡ Err fault.Failed) ↔ IsTrue (is_due self.old.failures) }
        ensures counted { self.new.failures ≡ after_call self.old.failures }
    {
        self.failures.call()?;
        self.host.make_dir(alloc, path)
    }

    fn make_link(&mut self, alloc: Global, path: &Path, to: &Text) -> Result<(), HostFault>
        requires fits { CanMake self.old.host path.now }
        requires offered { IsTrue self.old.offers.links }
        ensures ok { OnOk result (Some self.new.host ≡ Some (with_link path.now to.now self.old.host)) }
        ensures err { OnErr result (Some self.new.host ≡ Some self.old.host) }
        ensures offers { self.new.offers ≡ self.old.offers }
        ensures cause { HasHostCause self.old.failures.faults self.new.failures.faults result }
        ensures due { (result ≡ Err fault.Failed) ↔ IsTrue (is_due self.old.failures) }
        ensures counted { self.new.failures ≡ after_call self.old.failures }
    {
        self.failures.call()?;
        self.host.make_link(alloc, path, to)
    }

    fn set_mode(&mut self, alloc: Global, path: &Path, mode: Mode) -> Result<(), HostFault>
        requires fits { CanSetMode self.old.host path.now }
        requires offered { IsTrue self.old.offers.modes }
        ensures ok { OnOk result (Some self.new.host ≡ Some (with_mode path.now mode self.old.host)) }
        ensures err { OnErr result (Some self.new.host ≡ Some self.old.host) }
        ensures offers { self.new.offers ≡ self.old.offers }
        ensures cause { HasHostCause self.old.failures.faults self.new.failures.faults result }
        ensures due { (result ≡ Err fault.Failed) ↔ IsTrue (is_due self.old.failures) }
        ensures counted { self.new.failures ≡ after_call self.old.failures }
    {
        self.failures.call()?;
        self.host.set_mode(alloc, path, mode)
    }

    fn remove(&mut self, alloc: Global, path: &Path) -> Result<(), HostFault>
        requires { CanRemove self.old.host path.now }
        ensures ok { OnOk result (Some self.new.host ≡ Some (without path.now self.old.host)) }
        ensures err { OnErr result (LosesPart path.now self.old.host self.new.host) }
        ensures untouched { result ≡ Err fault.Failed → self.new.host ≡ self.old.host }
        ensures offers { self.new.offers ≡ self.old.offers }
        ensures cause { HasHostCause self.old.failures.faults self.new.failures.faults result }
        ensures due { (result ≡ Err fault.Failed) ↔ IsTrue (is_due self.old.failures) }
        ensures counted { self.new.failures ≡ after_call self.old.failures }
    {
        self.failures.call()?;
        self.host.remove(alloc, path)
    }
}
