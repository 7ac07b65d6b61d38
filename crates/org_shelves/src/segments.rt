//! The nine segments of a manifest.
ghost use Rattle.std.specs.Prelude.{◌≡◌, map};
ghost use Rattle.cookbook_meta.specs.Segments as nine;
ghost use Rattle.cookbook_meta.specs.Stored.{is_among};

static SEGMENTS: [&str; 9] = [
    "recipes",
    "definitions",
    "libraries",
    "attributes",
    "files",
    "templates",
    "resources",
    "providers",
    "root_files",
];

fn segments() -> &'static [&'static str]
    ensures { map (λ s. s.now) result.now ≡ nine.segments }
{
    &SEGMENTS
}

/// Whether a key is that of a segment.
pub(crate) fn is_segment(key: &str) -> bool
    ensures { result ≡ is_among key.now nine.segments }
{
    segments().contains(&key)
}
