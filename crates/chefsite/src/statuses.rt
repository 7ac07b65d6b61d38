//! The statuses with which the program ends.

ghost use Rattle.std.specs.Prelude.{◌≡◌};
ghost use Rattle.chefsite.specs.Statuses as spec;

/// How a command ended.
#[derive(Clone, Copy, Debug, PartialEq, Eq)]
pub enum Status {
    /// 0: all done. `answer` has read the input to its end.
    Done,
    /// 2: the words are no command, or spell no errand of `knife`. Nothing was read or written.
    Usage,
    /// 3: a read failed. `answer` has answered what was read before it; `explain` has written nothing. `knife` has printed
    /// nothing: no connection could be made, or the file or a reply couldn't be read; requests that were written stand.
    ReadFault,
    /// 4: a write failed. Some first replies or lines were written, the last perhaps in part. Of `knife` it is a request that
    /// couldn't be written, and then nothing was printed, or the output.
    WriteFault,
    /// 7: no memory was left. `answer` takes its own before it reads, and `explain` before it writes:
    /// nothing was written, and no input was read.
    NoMemory,
    /// 8: what follows the last whole message isn't nothing and is no message. The place of its first
    /// byte is counted from the first byte of the input.
    NotAMessage { place: u64 },
    /// 8: what the server sent is no reply to the request that is noted, or hasn't its form. Nothing was printed.
    BadReply,
    /// 12: the server answered the request that is noted with this status, which isn't expected. Nothing was printed.
    Refused { status: u16 },
    /// 13: the file that the words name isn't there, or its bytes haven't its format. Nothing was
    /// written.
    BadFile,
}

impl Status {
    /// The number that the process ends with.
    pub fn code(self) -> u8
        ensures { result ≡ spec.code self }
    {
        match self {
            Status::Done => 0,
            Status::Usage => 2,
            Status::ReadFault => 3,
            Status::WriteFault => 4,
            Status::NoMemory => 7,
            Status::NotAMessage { place: _ } | Status::BadReply => 8,
            Status::Refused { status: _ } => 12,
            Status::BadFile => 13,
        }
    }
}
