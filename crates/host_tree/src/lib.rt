//! Hosts: what stands at the paths of a machine, and the calls that look at it and change it.
#![tactic(auto)]

mod below;
mod caps;
mod entry;
mod fault;
mod faulty;
mod host;
mod image;
mod image_fault;
mod modes;
mod paths;
mod reading;
mod seen;
mod spelling;
mod writing;

pub use caps::Caps;
pub use entry::Entry;
pub use fault::HostFault;
pub use faulty::FaultyHost;
pub use host::Host;
pub use image::ImageHost;
pub use image_fault::ImageFault;
pub use modes::Mode;
pub use paths::Path;
pub use seen::Seen;
