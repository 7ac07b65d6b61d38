//! What a `Connection` header says.
ghost use Rattle.http_routes.specs.Connections as spec;
ghost use Rattle.std.specs.List.{list_any};
ghost use Rattle.std.specs.Prelude.{◌≡◌};
ghost use Rattle.std.specs.Str.{str_eq_ignore_ascii_case};

/// Whether the value of a `Connection` header lists the option `close`, in whatever case of its
/// letters (RFC 9110, section 7.6.1).
pub fn lists_close(value: &[u8]) -> bool
    ensures { result ≡ list_any spec.is_close (spec.options_in value.now) }
{
    value
        .split(|byte| *byte == b',')
        .any(|option| is_close(option))
}

fn is_close(option: &[u8]) -> bool
    ensures { result ≡ spec.is_close (spec.trimmed option.now) }
{
    is_option(option.trim_ascii(), b"close")
}

fn is_option(option: &[u8], name: &[u8]) -> bool
    ensures { result ≡ str_eq_ignore_ascii_case option.now name.now }
{
    option.eq_ignore_ascii_case(name)
}
