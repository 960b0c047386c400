//! The modes of a terminal, and the words that set them.

ghost use Rattle.std.specs.Prelude.{◌≡◌, ◌∷◌, [], codes, Ok};
ghost use Rattle.std.specs.Str.{bytes_eq};
ghost use Rattle.tty.specs.Modes.{sane, bare, cooked, switched, set_by, names_size, read};

use tcl_expr::read_number;
use tcl_words::Text;

/// The modes of a terminal, as POSIX.1-2017 XBD chapter 11 names them.
#[derive(Clone, Copy, PartialEq, Eq)]
pub struct Modes {
    /// Input is handed over line by line, and can be edited before that.
    pub icanon: bool,
    /// Input is echoed.
    pub echo: bool,
    /// A carriage return in the input becomes a newline.
    pub icrnl: bool,
    /// Output is mapped. If this is off, `onlcr` has no effect.
    pub opost: bool,
    /// A newline in the output becomes a carriage return and a newline.
    pub onlcr: bool,
}

/// The error for a word that sets no mode.
#[derive(Clone, Copy, PartialEq, Eq)]
pub struct BadMode {
    /// The index of the first bad word, from 0.
    pub at: usize,
}

fn is(word: &[u8], name: &[u8]) -> bool
    ensures { result ≡ bytes_eq word.now name.now }
{
    word == name
}

/// Returns whether a word must be followed by a number.
fn names_size(word: &[u8]) -> bool
    ensures { result ≡ names_size word.now }
{
    is(word, b"rows") || is(word, b"cols") || is(word, b"columns")
}

impl Modes {
    /// Returns the initial modes: all on.
    pub fn sane() -> Modes
        ensures { result ≡ sane }
    {
        Modes {
            icanon: true,
            echo: true,
            icrnl: true,
            opost: true,
            onlcr: true,
        }
    }

    /// Returns the modes that `raw -echo` sets. The terminal hands over each text at once and as it
    /// is, and echoes and maps nothing.
    pub fn bare() -> Modes
        ensures modes { result ≡ bare }
        ensures words { read (codes "raw" ∷ codes "-echo" ∷ []) ≡ Ok bare }
    {
        Modes {
            icanon: false,
            echo: false,
            icrnl: false,
            opost: false,
            onlcr: true,
        }
    }

    /// Returns the modes after `cooked`, or after its opposite `raw`.
    fn cooked(self, on: bool) -> Modes
        ensures { result ≡ cooked on self }
    {
        Modes {
            icanon: on,
            icrnl: on,
            opost: on,
            ..self
        }
    }

    /// Returns the modes after a name is set or cleared. `None` if the name is unknown.
    fn switched(self, name: &[u8], on: bool) -> Option<Modes>
        ensures { result ≡ switched name.now on self }
    {
        if is(name, b"icanon") {
            Some(Modes { icanon: on, ..self })
        } else if is(name, b"echo") {
            Some(Modes { echo: on, ..self })
        } else if is(name, b"icrnl") {
            Some(Modes { icrnl: on, ..self })
        } else if is(name, b"opost") {
            Some(Modes { opost: on, ..self })
        } else if is(name, b"onlcr") {
            Some(Modes { onlcr: on, ..self })
        } else if is(name, b"raw") {
            Some(self.cooked(!on))
        } else {
            None
        }
    }

    /// Returns the modes after a single word. `None` if the word is bad.
    fn set_by(self, word: &[u8]) -> Option<Modes>
        ensures { result ≡ set_by word.now self }
    {
        match word {
            [] => None,
            [b'-', name @ ..] => self.switched(name, false),
            [_, ..] => {
                if is(word, b"cooked") {
                    Some(self.cooked(true))
                } else if is(word, b"sane") {
                    Some(Modes::sane())
                } else {
                    self.switched(word, true)
                }
            }
        }
    }

    /// Returns the modes that words of stty(1) set, applied from left to right to the initial
    /// modes.
    ///
    /// The words `icanon`, `echo`, `icrnl`, `opost` and `onlcr` set a mode, and with `-` before
    /// them clear it. `raw` clears `icanon`, `icrnl` and `opost`. `-raw` and `cooked` set these
    /// three, and `sane` sets all modes. `rows`, `cols` and `columns`, each followed by a number,
    /// change nothing.
    ///
    /// `BadMode` contains the index of the first other word.
    pub fn read(words: &[Text]) -> Result<Modes, BadMode>
        ensures { result ≡ read words.now }
    {
        let mut modes = Modes::sane();
        let mut size = None;
        for (at, word) in words.iter().enumerate() {
            match size {
                Some(named) => {
                    if read_number(word.as_slice()).is_none() {
                        return Err(BadMode { at: named });
                    }
                    size = None;
                }
                None => {
                    if names_size(word.as_slice()) {
                        size = Some(at);
                    } else {
                        let Some(set) = modes.set_by(word.as_slice()) else {
                            return Err(BadMode { at });
                        };
                        modes = set;
                    }
                }
            }
        }
        match size {
            Some(named) => Err(BadMode { at: named }),
            None => Ok(modes),
        }
    }
}
