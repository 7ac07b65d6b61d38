//! What one action of one resource is to do.
ghost use Rattle.std.specs.Prelude.{◌≡◌, option_map};
ghost use Rattle.host_acts.specs.Tasks as spec;
ghost use Rattle.host_acts.specs.Works.{work_in};

use doc_tree::Text;
use host_tree::Mode;
use resource_core::{Action, Resource, ResourceType};

/// What is to be done at a path. What isn't given of a file or directory is left as it is, and for one that is made its
/// content is empty, its mode 0644 for a file and 0755 for a directory.
#[derive(Drop)]
pub(crate) enum Work<'a> {
    /// Makes a file, or gives the one that stands there what is given.
    MakeFile {
        content: Option<&'a Text>,
        mode: Option<Mode>,
        /// Whether a link in its place is replaced.
        replaces_link: bool,
    },
    /// Makes a file where none is, and leaves one that stands there as it is.
    MakeMissingFile {
        content: Option<&'a Text>,
        mode: Option<Mode>,
    },
    /// Removes a file, or a link.
    RemoveFile,
    /// Makes a directory, or gives the one that stands there the mode.
    MakeDirectory {
        mode: Option<Mode>,
        /// Whether missing prefixes of the path are made, with mode 0755.
        recursive: bool,
    },
    /// Removes a directory.
    RemoveDirectory {
        /// Whether what is in it is removed with it.
        recursive: bool,
    },
    /// Makes a link, or makes the one that stands there lead elsewhere.
    MakeLink {
        to: &'a Text,
    },
    /// Removes a link.
    RemoveLink,
}

/// What an action of a resource is to do, if anything.
pub(crate) fn work_of(resource: &Resource, action: Action) -> Option<Work<'_>>
    ensures { option_map work_in result ≡ spec.work_by resource.now.kind resource.now action }
{
    match resource.kind {
        ResourceType::File => file_work(resource, action),
        ResourceType::Directory => directory_work(resource, action),
        ResourceType::Link => link_work(resource, action),
    }
}

fn file_work(resource: &Resource, action: Action) -> Option<Work<'_>>
    ensures { option_map work_in result ≡ spec.file_work resource.now action }
{
    match action {
        Action::Create => Some(Work::MakeFile {
            content: resource.content.as_ref(),
            mode: resource.mode,
            replaces_link: resource.force_unlink,
        }),
        Action::CreateIfMissing => Some(Work::MakeMissingFile {
            content: resource.content.as_ref(),
            mode: resource.mode,
        }),
        Action::Delete => Some(Work::RemoveFile),
        Action::Nothing => None,
    }
}

fn directory_work(resource: &Resource, action: Action) -> Option<Work<'_>>
    ensures { option_map work_in result ≡ spec.directory_work resource.now action }
{
    match action {
        Action::Create => Some(Work::MakeDirectory {
            mode: resource.mode,
            recursive: resource.recursive,
        }),
        Action::Delete => Some(Work::RemoveDirectory {
            recursive: resource.recursive,
        }),
        Action::CreateIfMissing | Action::Nothing => None,
    }
}

fn link_work(resource: &Resource, action: Action) -> Option<Work<'_>>
    ensures { option_map work_in result ≡ spec.link_work resource.now action }
{
    match action {
        Action::Create => link_to(resource.to.as_ref()),
        Action::Delete => Some(Work::RemoveLink),
        Action::CreateIfMissing | Action::Nothing => None,
    }
}

fn link_to(to: Option<&Text>) -> Option<Work<'_>>
    ensures { option_map work_in result ≡ option_map spec.make_link (option_map (λ t. t.now) to.entry) }
{
    match to {
        Some(to) => Some(Work::MakeLink { to }),
        None => None,
    }
}
