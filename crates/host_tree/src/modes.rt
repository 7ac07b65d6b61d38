//! Modes of files and directories.
ghost use Rattle.std.specs.Prelude.{◌≡◌, ◌≤◌, ◌-◌, IsTrue, Some, None, nat_le, if◌then◌else◌};
ghost use Rattle.host_tree.specs.Modes as spec;

use std::marker::Model;

/// A mode: at most 4095, which is `0o7777`. Contracts see the number.
#[derive(Clone, Copy, Drop)]
pub struct Mode {
    bits: u16,
}

impl Model for Mode {
    ghost use Rattle.std.specs.Prelude.{ℕ, ◌≤◌};

    ghost Value = { ℕ };

    ghost view = { λ m. m.bits };

    ghost invariant = { λ m. m.bits ≤ 4095 };

    ghost inverse = { λ n. record { bits = n } };
}

impl Mode {
    /// The mode of this number, or `None` exactly above 4095.
    pub fn of(bits: u16) -> Option<Mode>
        ensures { result ≡ (if nat_le bits 4095 then Some bits else None) }
    {
        if bits <= 4095 {
            Some(Mode { bits })
        } else {
            None
        }
    }

    /// The mode of a number that is known to be at most 4095. [`Mode::of`] tests it.
    pub fn known(bits: u16) -> Mode
        requires { bits ≤ 4095 }
        ensures { result ≡ bits }
    {
        Mode { bits }
    }

    /// The mode that four octal digits spell, or `None` exactly where one of these bytes is no octal digit.
    pub fn octal(a: u8, b: u8, c: u8, d: u8) -> Option<Mode>
        ensures { result ≡ spec.octal_mode a b c d }
    {
        if is_octal(a) && is_octal(b) && is_octal(c) && is_octal(d) {
            Mode::of(512 * digit(a) + 64 * digit(b) + 8 * digit(c) + digit(d))
        } else {
            None
        }
    }

    /// Its number.
    pub fn bits(self) -> u16
        ensures value { result ≡ self }
        ensures small { self ≤ 4095 }
    {
        self.bits
    }
}

fn is_octal(byte: u8) -> bool
    ensures { result ≡ spec.is_octal byte }
{
    b'0' <= byte && byte <= b'7'
}

fn digit(byte: u8) -> u16
    requires { IsTrue (spec.is_octal byte) }
    ensures value { result ≡ byte - 48 }
    ensures small { result ≤ 7 }
{
    u16::from(byte - b'0')
}
