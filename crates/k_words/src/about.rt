//! The words that ask for a text on the program itself, and these texts.
ghost use Rattle.std.specs.Prelude.{◌≡◌, None, Some};
ghost use Rattle.k_words.specs.About.{asked_for, help_text, version_text};
ghost use Rattle.k_words.specs.Settings.{seen_words};

/// A text on the program itself.
#[derive(Clone, Copy, Debug, PartialEq, Eq)]
pub enum Asked {
    Help,
    Version,
}

/// Which text on the program itself the words ask for, if they do: `--help` or `-h`, and `--version` or `-V`, as the only word.
pub fn asked_for(list: &[String]) -> Option<Asked>
    ensures { result ≡ asked_for (seen_words list.now) }
{
    let (word, rest) = list.split_first()?;
    if !rest.is_empty() {
        return None;
    }
    let word = word.as_str();
    if word == "--help" || word == "-h" {
        Some(Asked::Help)
    } else if word == "--version" || word == "-V" {
        Some(Asked::Version)
    } else {
        None
    }
}

/// The product and its number, in a line.
pub fn version() -> &'static str
    ensures { result.now ≡ version_text }
{
    "kremlin 1.0.0\n"
}

/// What each command does, each option with its range and default, each exit status, and two examples.
pub fn help() -> &'static str
    ensures { result.now ≡ help_text }
{
    HELP
}

const HELP: &str = "\
kremlin: which loops of a serial C program are worth making parallel

kremlin run FILE [OPTION ..]       runs a C program and writes its output, its profile and a plan
kremlin graph FILE [OPTION ..]     lists the events of the run and a heaviest path for each region instance
kremlin carried FILE [OPTION ..]   lists for each loop which places use what other places gave in an earlier turn
kremlin replay FILE [OPTION ..]    lets workers fire the operations of the run in any order and counts their rounds
kremlin page FILE [OPTION ..]      runs a C program and writes one page of HTML: its profile, its plan and its source
kremlin annotate FILE [OPTION ..]  runs a C program and writes its source with the numbers of each loop and OpenMP lines
kremlin show FILE [OPTION ..]      writes a saved profile or sum: its report, a JSON document, or its rows as CSV
kremlin merge OUT FILE FILE ..     saves the sum of 2 to 4096 saved profiles or sums of runs of one program
kremlin check FILE                 reads and checks a C program and does not run it; what is refused it shows in its line
kremlin demo NUMBER LOOPS          makes a program of LOOPS loops (1 to 2000) from NUMBER and sums up its run
kremlin --help, -h                 writes this text
kremlin --version, -V              writes the product and its number

--steps=N       at most N operations; run, carried, page, annotate: 1 to 1000000000, default 100000000; graph, replay: 1 to 200000, default 200000
--depth=N       levels of regions that are tracked; run, graph, carried, replay, page, annotate: 1 to 32, default 24
--latency=FILE  a table of latencies in TOML; run, graph, carried, replay, page, annotate; default the standard latencies
--dict          lists the dictionary of summaries; run, page, show; default no list
--save=FILE     saves the profile; run; default not saved
--storage       lists for each loop also which places share storage between turns and hand nothing on; carried; default no list
--strict        marks only loops whose turns share no storage besides; annotate; default loops that hand nothing on
--workers=P     how many workers there are; replay: 1 to 16, default 4
--seed=S        the number that their order is drawn from; replay: 0 to 18446744073709551615, default 1
--json          writes a JSON document, with the dictionary by --dict; show; default the report
--csv           writes the rows as CSV, and takes neither --dict nor --json; show; default the report

exit status:
 0  done
 1  the program came to a trap
 2  out of steps
 3  the source was refused
 4  wrong words
 5  a file is absent
 6  a read failed
 7  a write failed
 8  no memory
 9  the input is too long
10  the latency table was refused
11  a saved file was refused
12  a file is too long

examples:
kremlin run matrix.c --save=matrix.profile
kremlin show matrix.profile --dict
";
