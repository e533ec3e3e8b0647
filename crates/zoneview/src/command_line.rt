//! The words that the program takes, and what its help says.
use clap::{Arg, ArgAction, Command};
use std::alloc::{AllocError, Global};

const ABOUT: &str = "Shows what the free memory of zones is good for";

const INDEX_ABOUT: &str =
    "For each zone of /proc/buddyinfo how much of its free memory a request of each order can use";

const INDEX_HELP: &str = "\
Reads /proc/buddyinfo of any Linux, or lines of its shape, on standard input.
For each zone and order it tells two figures of Linux, by Linux's arithmetic:

  unusable       The unusable free space index: the share of the free pages
                 that lie in blocks too small for the order. 0.000 says that a
                 request of this order could use them all, 1.000 that it could
                 use none.
  fragmentation  The fragmentation index: why a request of this order would
                 fail. -1.000 where it would not, for a block is there; else
                 towards 0 for want of memory, towards 1 for fragmentation.
                 0.000 where nothing is free.

Behind each stands its bar: the longer, the worse.

  zoneview index < /proc/buddyinfo
  zoneview index --page 16K --ascii < buddyinfo.txt

A line that is no line of buddyinfo is told by its number on standard error;
then nothing is written, and the status is 1.";

const MAP_ABOUT: &str =
    "Draws each zone of a trace: a line a pageblock, and who stands in the way of a block";

const MAP_HELP: &str = "\
Reads a trace on standard input, as zonereplay does, and carries out its
requests one after another, up to --line N or all. Then each pageblock of each
zone has a line: its number, the letter of its type, and a cell for so many
pages as fit the width. Pages in use have shades, and on a terminal the colour
of who has them; with --ascii free pages are . or the digit of their block's
order, worker 0's pages A and those in its list a, worker 1's B and b, and so
on, and posted pages *. Beneath stand what each worker has, the largest free
block, and what stands in the way of a block of --order K: of the aligned runs
of 2^K pages the one with the fewest pages in use, and who has these.

  zoneview map < trace
  zoneview map --line 200 --order 9 --ascii < trace";

const TABLES_ABOUT: &str = "Writes the tables of /proc/pagetypeinfo for the zones of a trace";

const TABLES_HELP: &str = "\
Reads a trace on standard input and carries out its requests, up to --line N or
all. What is written has the shape of Linux's /proc/pagetypeinfo: the free
blocks of each migrate type and order, and the pageblocks of each type.";

const FILM_ABOUT: &str = "Draws all zones over all requests of a trace: one picture, as SVG";

const FILM_HELP: &str = "\
Reads a trace on standard input. Pages go from left to right and requests from
top to bottom; a colour says what a page is: free by order, out, posted, or in a
worker's list. At most 2,000 cells stand in each direction: neighbours are put
together by the state that most pages have. A film that takes longer than two
seconds tells on a terminal, by standard error, how far it is.

  zoneview film --svg < trace > film.svg";

const CHART_ABOUT: &str =
    "Draws the free pages of each zone by order over the requests of a trace, as SVG";

const CHART_HELP: &str = "\
Reads a trace on standard input. The free pages stand on each other by the order
of their blocks, with the marks of the zone as lines. A chart that takes longer
than two seconds tells on a terminal, by standard error, how far it is.

  zoneview chart --svg < trace > chart.svg";

const EVENTS_ABOUT: &str =
    "Carries out a kernel's page events over zones of ours: what would have been refused, what would be free";

const EVENTS_HELP: &str = "\
Reads page events on standard input, as ftrace, trace-cmd report and perf script
write them (kmem:mm_page_alloc, mm_page_free), of any length, and carries them
out: a block that the kernel handed out is asked of our zones, by a worker of
the event's CPU, from the highest zone that its flags allow; what is freed is
given back by the worker of the CPU that frees it. A zone named Movable is asked
only where the flags allow movable pages of users.

Two commands capture a machine (as root, where tracefs is mounted):

  cat /proc/zoneinfo > capture
  trace-cmd record -e kmem:mm_page_alloc -e kmem:mm_page_free sleep 10 &&
    trace-cmd report >> capture

The zones are those of the zoneinfo before the first event, or those that are
named, each behind the one before it.

  zoneview events < capture
  zoneview events --zone Normal 0 262144 1024 --lists 31 62 < events
  zoneview events --every 1000 < capture > counts.csv
  zoneview events --svg < capture > free.svg

Written is a table: how many events there were and what became of each, how many
sections they took, and the most pages that were out; then the zones at the end
as lines of buddyinfo, with the two indexes of zoneview index; what stands in the
way of the largest block; and, where the input tells the kernel's own buddyinfo
behind a line '== buddyinfo after', both side by side.

Lines that are no page event are passed over. What is not to be trusted is told
on standard error: lines that hold an event's name and are none, events that are
lost, by lines of ftrace, and with --keep-going how many lines are broken. A line
that begins as a page event and is broken, or has more than 65,536 bytes, is told
by its number; so it is where there is no page event. The status is then 1. A run
that takes longer than two seconds tells on a terminal, by standard error, how
many events it has carried out.";

const EXAMPLE: &str = "\
Examples:
  zoneview index < /proc/buddyinfo
  zoneview events < capture
  zoneview map --order 9 < trace
  zoneview film --svg < trace > film.svg
  zoneview map --help";

/// The program's words.
pub fn command<'a>(alloc: Global) -> Result<Command<'a>, AllocError> {
    Command::new(alloc, "zoneview")
        .about(ABOUT)
        .after_help(EXAMPLE)
        .subcommand_required(true)
        .subcommand(index(alloc)?)?
        .subcommand(map(alloc)?)?
        .subcommand(of_trace(alloc, "pagetypeinfo", TABLES_ABOUT, TABLES_HELP)?)?
        .subcommand(svg(alloc, "film", FILM_ABOUT, FILM_HELP)?)?
        .subcommand(svg(alloc, "chart", CHART_ABOUT, CHART_HELP)?)?
        .subcommand(events(alloc)?)
}

/// The words of `zoneview index`.
fn index<'a>(alloc: Global) -> Result<Command<'a>, AllocError> {
    Command::new(alloc, "index")
        .about(INDEX_ABOUT)
        .after_help(INDEX_HELP)
        .arg(page(alloc))?
        .arg(ascii_bars(alloc))
}

/// The word for the size of a page.
fn page<'a>(alloc: Global) -> Arg<'a> {
    Arg::new(alloc, "page")
        .long("page")
        .value_name("SIZE")
        .default_value("4K")
        .help("The size of a page: a number of bytes, or of K, M or G")
}

/// The words of a command that reads a trace.
fn of_trace<'a>(
    alloc: Global,
    name: &'a str,
    about: &'a str,
    help: &'a str,
) -> Result<Command<'a>, AllocError> {
    let line = Arg::new(alloc, "line").long("line").value_name("N").help(
        "Carry out the trace up to its line N; all of it where none is named",
    );
    Command::new(alloc, name)
        .about(about)
        .after_help(help)
        .arg(line)
}

/// The words of a command whose picture is SVG.
fn svg<'a>(
    alloc: Global,
    name: &'a str,
    about: &'a str,
    help: &'a str,
) -> Result<Command<'a>, AllocError> {
    let svg = Arg::new(alloc, "svg")
        .long("svg")
        .action(ArgAction::SetTrue)
        .help("Write SVG, which is the only form");
    of_trace(alloc, name, about, help)?.arg(svg)
}

/// The words of `zoneview map`.
fn map<'a>(alloc: Global) -> Result<Command<'a>, AllocError> {
    let order = Arg::new(alloc, "order").long("order").value_name("K").help(
        "Tell what stands in the way of a block of order K; of the zone's largest where none is named",
    );
    let ascii = Arg::new(alloc, "ascii")
        .long("ascii")
        .action(ArgAction::SetTrue)
        .help("Draw with letters and digits");
    of_trace(alloc, "map", MAP_ABOUT, MAP_HELP)?
        .arg(order)?
        .arg(ascii)
}

/// The words of `zoneview events`.
fn events<'a>(alloc: Global) -> Result<Command<'a>, AllocError> {
    let zone = Arg::new(alloc, "zone")
        .long("zone")
        .num_args(4)
        .action(ArgAction::Append)
        .value_names(&["NAME", "BASE", "PAGES", "MIN"])
        .help("A zone: its name, first page, pages, and least mark; the lowest zone first");
    let lists = Arg::new(alloc, "lists")
        .long("lists")
        .num_args(2)
        .value_names(&["BATCH", "HIGH"])
        .help("The lists of each worker: pages of a refill, and the most pages of a list (31 62)");
    let largest = Arg::new(alloc, "largest")
        .long("largest")
        .value_name("K")
        .help("The order of the zones' largest blocks (10)");
    let cpus = Arg::new(alloc, "cpus").long("cpus").value_name("N").help(
        "How many CPUs have a worker of their own, up to 32; those above share (as many as there are)",
    );
    Command::new(alloc, "events")
        .about(EVENTS_ABOUT)
        .after_help(EVENTS_HELP)
        .arg(zone)?
        .arg(lists)?
        .arg(largest)?
        .arg(cpus)?
        .arg(keep_going(alloc))?
        .arg(page(alloc))?
        .arg(every(alloc))?
        .arg(event_chart(alloc))?
        .arg(ascii_bars(alloc))
}

/// The word for broken lines.
fn keep_going<'a>(alloc: Global) -> Arg<'a> {
    Arg::new(alloc, "keep-going")
        .long("keep-going")
        .action(ArgAction::SetTrue)
        .help("Pass over broken lines, and tell on standard error how many there are")
}

/// The word for counts over the events.
fn every<'a>(alloc: Global) -> Arg<'a> {
    Arg::new(alloc, "every").long("every").value_name("N").help(
        "Write the free blocks of each zone after each N events, and at the end, as CSV, and no table",
    )
}

/// The word for the chart of the events.
fn event_chart<'a>(alloc: Global) -> Arg<'a> {
    Arg::new(alloc, "svg")
        .long("svg")
        .action(ArgAction::SetTrue)
        .help("Draw the free pages by order over the events as SVG, and write no table")
}

/// The word for bars of ASCII.
fn ascii_bars<'a>(alloc: Global) -> Arg<'a> {
    Arg::new(alloc, "ascii")
        .long("ascii")
        .action(ArgAction::SetTrue)
        .help("Draw the bars with # and dots")
}
