//! The hint of words that are those of no command.

/// A program of this project.
#[derive(Clone, Copy, Debug, PartialEq, Eq)]
pub enum Program {
    /// `hp`.
    Hp,
    /// `hpd`.
    Hpd,
    /// `hpview`.
    Hpview,
    /// `hptrace`.
    Hptrace,
}

const HP_VERSION: &str =
    "hp 1.0.0\nwhether this build is proved its record says, share/doc/hp/hp.proved where it is installed\n";

const HPD_VERSION: &str =
    "hpd 1.0.0\nwhether this build is proved its record says, share/doc/hp/hpd.proved where it is installed\n";

const HPVIEW_VERSION: &str =
    "hpview 1.0.0\nwhether this build is proved its record says, share/doc/hp/hpview.proved where it is installed\n";

const HPTRACE_VERSION: &str =
    "hptrace 1.0.0\nwhether this build is proved its record says, share/doc/hp/hptrace.proved where it is installed\n";

const HP_HELP: &str =
    "hp plays scripts of CPU hotplug, and checks journals. What reads, reads standard input.

  play               a script: its journal and summary
  states             a script: the states file after it
  report             a script: its summary as JSON
  count STATE BATCH  a script: counters of a state, 1 to 198, with a batch, 1 to 1000000
  smt T MODE         a script, with T threads a core, 2 to 8, and MODE off or forceoff
  replay             a journal: its summary
  migrate            a journal of version 1: the same in version 2
  gen, bench         nothing: a generated script, or the summary of its run
                     --seed V, 0 to 18446744073709551615; --size V, 1 to 1000
";

const HPD_HELP: &str = "hpd runs scripts of CPU hotplug on threads. It reads standard input.

  run                a script: the journal of its run, and the summary
  work STATE         the same, and the work queues of a state, 1 to 198
";

const HPVIEW_HELP: &str = "hpview draws a journal as SVG. It reads standard input.

  --from N           the first event of the window, counted from 1
  --to M             the last one
";

const HPTRACE_HELP: &str =
    "hptrace judges the lines of a kernel's trace of CPU hotplug: the file trace of ftrace, what trace-cmd report shows, or dmesg.
It takes no words, and reads standard input.

  hptrace < FILE     whether its lines can stand, or the first that can't
";

/// Whether a word asks for help.
fn asks_for_help(word: &str) -> bool {
    word == "--help" || word == "-h"
}

/// Whether a word asks for the version.
fn asks_for_version(word: &str) -> bool {
    word == "--version" || word == "-V"
}

/// What is said of words of `hp` that begin with this one.
fn hint_of_hp(word: &str) -> &'static str {
    if word == "play" {
        return "play reads standard input: hp play < FILE\n";
    }
    if word == "states" {
        return "states reads standard input: hp states < FILE\n";
    }
    if word == "report" {
        return "report reads standard input: hp report < FILE\n";
    }
    if word == "replay" {
        return "replay reads standard input: hp replay < FILE\n";
    }
    if word == "migrate" {
        return "migrate reads standard input: hp migrate < FILE\n";
    }
    if word == "count" {
        return "count takes STATE, 1 to 198, and BATCH, 1 to 1000000: hp count 150 8 < FILE\n";
    }
    if word == "smt" {
        return "smt takes T, 2 to 8, and MODE, off or forceoff: hp smt 2 off < FILE\n";
    }
    if word == "gen" || word == "bench" {
        return "options: --seed V, 0 to 18446744073709551615, and --size V, 1 to 1000, each at most once\n";
    }
    "hp --help lists the commands\n"
}

/// What is said of words of `hpd` that begin with this one.
fn hint_of_hpd(word: &str) -> &'static str {
    if word == "run" {
        return "run reads standard input: hpd run < FILE\n";
    }
    if word == "work" {
        return "work takes STATE, 1 to 198: hpd work 150 < FILE\n";
    }
    "hpd --help lists the commands\n"
}

impl Program {
    fn help(self) -> &'static str {
        match self {
            Program::Hp => HP_HELP,
            Program::Hpd => HPD_HELP,
            Program::Hpview => HPVIEW_HELP,
            Program::Hptrace => HPTRACE_HELP,
        }
    }

    fn version(self) -> &'static str {
        match self {
            Program::Hp => HP_VERSION,
            Program::Hpd => HPD_VERSION,
            Program::Hpview => HPVIEW_VERSION,
            Program::Hptrace => HPTRACE_VERSION,
        }
    }

    /// What a program says on standard error of words that are those of no command: the commands, its version, or what the command
    /// takes that the first word names.
    ///
    /// There is no condition. Takes no memory. The words are this project's own.
    pub fn words_hint(self, words: &[String]) -> &'static str {
        let first = match words.first() {
            Some(word) => word.as_str(),
            None => "",
        };
        if asks_for_help(first) {
            return self.help();
        }
        if asks_for_version(first) {
            return self.version();
        }
        match self {
            Program::Hp => hint_of_hp(first),
            Program::Hpd => hint_of_hpd(first),
            Program::Hpview => {
                "hpview takes --from N and --to M, each at most once and a number up to 18446744073709551615, and reads standard input: hpview < FILE\n"
            }
            Program::Hptrace =>
                "hptrace takes no words, and reads standard input: hptrace < FILE\n",
        }
    }
}
