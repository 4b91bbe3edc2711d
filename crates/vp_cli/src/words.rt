use vp_text::Text;

/// The program's version.
pub const VERSION: &str = "0.1.0";

/// What the program's words ask.
#[derive(Drop)]
pub enum Command<'a> {
    /// To run the script of standard input over two files.
    Run {
        design: &'a str,
        policy: &'a str,
        /// So many orders are tried of each time slot.
        seeds: u32,
    },
    /// To read a design, and a policy if there is one, and to report the first fault.
    Check {
        design: &'a str,
        policy: Option<&'a str>,
    },
    /// To print what a user sees of a design under a policy.
    View {
        design: &'a str,
        policy: &'a str,
        user: &'a str,
    },
    /// To audit a user by the script of standard input over a design and a policy, and to explain what he was shown, if that is asked.
    Audit {
        design: &'a str,
        policy: &'a str,
        user: &'a str,
        /// So many orders are tried of each time slot.
        seeds: u32,
        explain: bool,
    },
    /// To serve a design under a policy to whoever connects to a port.
    Serve {
        design: &'a str,
        policy: &'a str,
        port: u16,
        /// So many threads search for races.
        workers: u32,
        /// It ends after so many connections; where it is 0, it does not end.
        sessions: u32,
        /// It keeps its log, which is full at last.
        keep: bool,
        /// It reports what happens.
        log: bool,
    },
    /// To run the bundle of standard input.
    Bundle,
    /// To print the help or the version.
    Show(Text),
}

/// Why the program's words are refused.
#[derive(Drop)]
pub enum Misuse {
    /// They ask for nothing that the program does; with the text that says so (1608).
    BadWords(Text),
    /// Out of memory (1607).
    NoMemory,
}

impl Misuse {
    ghost use Rattle.std.specs.Prelude.{◌≡◌};
    ghost use Rattle.vp_cli.specs.Misuses.{code_of};

    /// Its number.
    pub fn code(&self) -> u32
        ensures { result ≡ code_of self.now }
    {
        match self {
            Misuse::BadWords(_) => 1608,
            Misuse::NoMemory => 1607,
        }
    }
}
