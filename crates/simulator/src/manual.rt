//! The commands of scripts, for people.
use std::{fmt, str};

/// A command of scripts.
pub struct Usage {
    /// Its words: S is a session's number, M, A and B are members' slots, C a cookie, O an offset and L a length in bytes, H bytes in
    /// lower-case hexadecimal.
    pub words: &'static str,
    /// What it does.
    pub does: &'static str,
}

/// All commands, a line for each form.
pub const COMMANDS: [Usage; 41] = [
    Usage {
        words: "new M N P",
        does: "a chain of M members (1 to 8), N blocks (1 to 65,536), payloads of up to P bytes: the first command",
    },
    Usage {
        words: "session S M",
        does: "session S, negotiated, at the member of slot M",
    },
    Usage {
        words: "write S C O H",
        does: "the client of session S sends a WRITE of H at offset O, with cookie C",
    },
    Usage {
        words: "fua S C O H",
        does: "the same with FUA",
    },
    Usage {
        words: "read S C O L",
        does: "it sends a READ of L bytes at offset O",
    },
    Usage {
        words: "flush S C",
        does: "it sends a FLUSH",
    },
    Usage {
        words: "zero S C O L",
        does: "it sends a WRITE_ZEROES of L bytes at offset O",
    },
    Usage {
        words: "fzero S C O L",
        does: "the same with FUA",
    },
    Usage {
        words: "run",
        does: "rounds of all steps until one changes nothing",
    },
    Usage {
        words: "state",
        does: "prints the epoch, the committed front and the chain",
    },
    Usage {
        words: "connect S M",
        does: "a raw session at member M: what it is sent is printed",
    },
    Usage {
        words: "bytes S H",
        does: "the client of session S sends bytes; H may be several words",
    },
    Usage {
        words: "take M",
        does: "member M takes the oldest demand of its sessions",
    },
    Usage {
        words: "number A",
        does: "the head numbers the first write on its way from A",
    },
    Usage {
        words: "pass A B",
        does: "B takes the first message on its way from A",
    },
    Usage {
        words: "raise M",
        does: "the tail raises the committed front, and takes it",
    },
    Usage {
        words: "begin M",
        does: "the commit of the next write is begun",
    },
    Usage {
        words: "end M",
        does: "the commit under way is ended",
    },
    Usage {
        words: "commit M",
        does: "both, behind a checkpoint where the batch doesn't fit",
    },
    Usage {
        words: "bgroup M G",
        does: "the commit of at most G writes is begun",
    },
    Usage {
        words: "post M",
        does: "the last receipt is posted on the board",
    },
    Usage {
        words: "tick M",
        does: "one pending block is written home",
    },
    Usage {
        words: "checkpoint M",
        does: "all pending blocks are written home, and the journal area is emptied",
    },
    Usage {
        words: "front M",
        does: "the front is looked up for what asks for it, and kept",
    },
    Usage {
        words: "crew M",
        does: "the mask is looked up behind the kept front",
    },
    Usage {
        words: "settle M",
        does: "the gauges are looked up, and what waits for the floor is answered",
    },
    Usage {
        words: "floor M",
        does: "front, crew and settle",
    },
    Usage {
        words: "stop M",
        does: "member M stops",
    },
    Usage {
        words: "remove M",
        does: "the manager begins the removal of stopped member M",
    },
    Usage {
        words: "join M",
        does: "the manager begins the joining of a new disk at slot M",
    },
    Usage {
        words: "abandon",
        does: "it abandons the joining under way",
    },
    Usage {
        words: "order",
        does: "the manager's next order is carried out",
    },
    Usage {
        words: "orders",
        does: "all its orders are carried out",
    },
    Usage {
        words: "fail config K",
        does: "the K-th device call of the configuration's disk from now on fails, once",
    },
    Usage {
        words: "stopat config K N",
        does: "everything stops in the K-th device call of that disk from now on, after N bytes",
    },
    Usage {
        words: "fail M K",
        does: "the K-th device call of member M from now on fails, once",
    },
    Usage {
        words: "stopat M K N",
        does: "everything stops in the K-th device call of member M from now on, after N bytes",
    },
    Usage {
        words: "cut all",
        does: "everything stops; what wasn't synced is as written",
    },
    Usage {
        words: "cut none",
        does: "everything stops; what wasn't synced is all ff",
    },
    Usage {
        words: "return M",
        does: "after a cut member M goes on alone, from its disk",
    },
    Usage {
        words: "return",
        does: "after a cut none goes on: it is refused with 191",
    },
];

/// What a line has wrong that is no command, or not in its place.
#[derive(Drop)]
pub(crate) enum Mistake<'a> {
    /// It isn't UTF-8.
    NoText,
    /// The first command is `new`.
    NotNew,
    /// `new` comes once, and with 1 to 8 members.
    New,
    /// There is no such command.
    NoCommand(&'a str),
    /// The command has other words.
    Words(&'a str),
}

impl fmt::Display for Mistake<'_> {
    fn fmt<W: fmt::Write>(&self, f: &mut fmt::Formatter<W>) -> fmt::Result {
        match self {
            Mistake::NoText => write!(f, "it is no text"),
            Mistake::NotNew => write!(f, "the first command is `new M N P`"),
            Mistake::New => write!(f, "`new M N P` comes once, first, with 1 to 8 members"),
            Mistake::NoCommand(word) => write!(f, "there is no command `{word}`"),
            Mistake::Words(word) => {
                write!(f, "the words aren't those of `{word}`:")?;
                for usage in &COMMANDS {
                    if first_word(usage.words) == *word {
                        let words = usage.words;
                        write!(f, " `{words}`")?;
                    }
                }
                write!(f, ", each behind one space")
            }
        }
    }
}

/// The first word of a line.
fn first_word(line: &str) -> &str {
    line.split(' ').next().unwrap_or("")
}

/// What a line has wrong. It may be the script's first command.
pub(crate) fn mistake_of(line: &[u8], is_first: bool) -> Mistake<'_> {
    let Ok(text) = str::from_utf8(line) else {
        return Mistake::NoText;
    };
    let word = first_word(text);
    if !COMMANDS.iter().any(|usage| first_word(usage.words) == word) {
        return Mistake::NoCommand(word);
    }
    if word == "new" && text.split(' ').count() == 4 {
        return Mistake::New;
    }
    if is_first && word != "new" {
        return Mistake::NotNew;
    }
    Mistake::Words(word)
}
