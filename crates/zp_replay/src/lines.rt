//! The lines of the output, as text.
ghost use Rattle.std.specs.Prelude.{◌≡◌, ◌≤◌, ◌+◌, ◌*◌, ◌++◌, codes, length};
ghost use Rattle.zp_model.specs.Mark.{level_of};
ghost use Rattle.zp_model.specs.Zone.{pages_of};
ghost use Rattle.zp_replay.specs.Replies.{reply_line, reply_words};
ghost use Rattle.zp_replay.specs.Output.{level_word, counted, total_line, bad_line};

use zp_info::{DIGITS, TextBuffer};
use zp_model::{LONGEST_NAME, Level, Worker};
use zp_office::CommandReply;
use zp_share::Totals;
use zp_zone::Zone;

/// The most bytes of a line.
pub const LINE: usize = 160;

/// The most bytes of what a worker gets, or that it was done.
const WORDS: usize = 2 * DIGITS + 15;

/// Appends the reply to a worker: `W: page P`, `W: block P order K`, `W: freed`, `W: posted`, `W: drained N`, `W: isolated`,
/// `W: released` or `W: refused C`.
pub fn push_reply_line<const CAP: usize>(
    text: &mut TextBuffer<CAP>,
    worker: Worker,
    reply: &CommandReply,
)
    requires { length text.old + LINE ≤ CAP }
    ensures bytes { text.new ≡ text.old ++ reply_line worker reply.now }
    ensures len { length text.new ≤ length text.old + LINE }
{
    text.push_number(u32::from(worker.number()));
    text.push(": ");
    push_reply_words(text, reply);
    text.push("\n");
}

/// Appends what a worker gets, or that it was done. An info has lines of its own.
fn push_reply_words<const CAP: usize>(text: &mut TextBuffer<CAP>, reply: &CommandReply)
    requires { length text.old + WORDS ≤ CAP }
    ensures bytes { text.new ≡ text.old ++ reply_words reply.now }
    ensures len { length text.new ≤ length text.old + WORDS }
{
    match reply {
        CommandReply::Page(page) => push_counted(text, "page ", page.number()),
        CommandReply::Block(block) => {
            push_counted(text, "block ", block.page.number());
            push_counted(text, " order ", u32::from(block.order.number()));
        }
        CommandReply::Freed => text.push("freed"),
        CommandReply::Posted => text.push("posted"),
        CommandReply::Drained(pages) => push_counted(text, "drained ", *pages),
        CommandReply::Isolated => text.push("isolated"),
        CommandReply::Released => text.push("released"),
        CommandReply::Refused(refused) => push_counted(
            text,
            "refused ",
            u32::from(refused.number()),
        ),
        CommandReply::Info(_) => {}
    }
}

/// Appends a zone's total line, with where its pages are.
pub fn push_total_of<const CAP: usize>(text: &mut TextBuffer<CAP>, zone: &Zone, totals: &Totals)
    requires { length text.old + LINE ≤ CAP }
    ensures bytes { text.new ≡ text.old ++ total_line zone.now.name (pages_of zone.now.plain) totals.now (level_of zone.now.plain) }
    ensures len { length text.new ≤ length text.old + LINE }
{
    let name = zone.name();
    push_total_line(text, name, zone.pages(), totals, zone.level());
}

/// Appends `total NAME pages A free B posted C cached D lent E level L`.
fn push_total_line<const CAP: usize>(
    text: &mut TextBuffer<CAP>,
    name: &str,
    pages: u32,
    totals: &Totals,
    level: Level,
)
    requires name { length name.now ≤ LONGEST_NAME }
    requires room { length text.old + LINE ≤ CAP }
    ensures bytes { text.new ≡ text.old ++ total_line name.now pages totals.now level }
    ensures len { length text.new ≤ length text.old + LINE }
{
    text.push("total ");
    text.push(name);
    push_counted(text, " pages ", pages);
    push_counted(text, " free ", totals.free);
    push_counted(text, " posted ", totals.posted);
    push_counted(text, " cached ", totals.cached);
    push_counted(text, " lent ", totals.lent);
    text.push(" level ");
    text.push(level_word(level));
    text.push("\n");
}

/// `bad line N`.
pub fn bad_line(number: u32) -> TextBuffer<LINE>
    ensures { result ≡ bad_line number }
{
    let mut text = TextBuffer::new();
    push_counted(&mut text, "bad line ", number);
    text.push("\n");
    text
}

/// Appends what is counted, and how many there are.
#[inline(always)]
fn push_counted<const CAP: usize>(text: &mut TextBuffer<CAP>, what: &str, number: u32)
    requires { length text.old + length what.now + DIGITS ≤ CAP }
    ensures bytes { text.new ≡ text.old ++ counted what.now number }
    ensures len { length text.new ≤ length text.old + length what.now + DIGITS }
{
    text.push(what);
    text.push_number(number);
}

fn level_word(level: Level) -> &'static str
    ensures word { result.now ≡ level_word level }
    ensures short { length result.now ≤ 5 }
{
    match level {
        Level::High => "high",
        Level::Low => "low",
        Level::Min => "min",
        Level::Short => "short",
    }
}
