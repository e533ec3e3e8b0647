//! The first block of the largest order and the last page, in status trees of one and of two rows of ranks.
ghost use Rattle.std.specs.Prelude.{◌≡◌, ◌≤◌};
ghost use Rattle.zp_model.specs.declared.constants.TheConstants.{LARGEST_ORDER, MAX_PAGES};

use std::alloc::AllocGlobal;
use std::process::Abort;
use std::test::*;
use zp_model::{MAX_PAGES, Order, PageAt};
use zp_tree::{Meter, OrderTree};

fn order(number: u8) -> Order
    requires { number ≤ LARGEST_ORDER }
    ensures { result ≡ number }
{
    Order::new(number).unwrap()
}

/// The order of this number, from a table.
fn order_from(rt: &impl Abort, number: u8) -> Order {
    Order::new(number).expect(rt, "there is no such order")
}

/// Compares the largest order, and for each order asked for the head and the order of the lowest block, and sees how many words are read.
fn expect_blocks(
    rt: &impl Abort,
    tree: &mut OrderTree,
    most_reads: u64,
    largest: u8,
    lowest: &[(u8, Option<(u32, u8)>)],
)
    ensures { tree.new ≡ tree.old }
{
    assert!(rt; tree.largest().map(Order::number) == Some(largest));
    'orders: for &(least, wanted) in lowest {
        let mut meter = Meter::new();
        let found = tree.lowest(order_from(rt, least), &mut meter);
        let found = found.map(|(at, order)| (at.number(), order.number()));
        assert!(rt; found == wanted);
        assert!(rt; meter.count() <= most_reads);
    }
}

/// Compares the largest orders in ranges, each given by its first page and its order.
fn expect_largest_in(rt: &impl Abort, tree: &OrderTree, ranges: &[(u32, u8, Option<u8>)]) {
    for &(page, number, wanted) in ranges {
        let order = order_from(rt, number);
        assert!(rt; page < MAX_PAGES);
        assert!(rt; page % order.pages() == 0);
        let found = tree.largest_in(PageAt::at(page), order);
        assert!(rt; found.map(Order::number) == wanted);
    }
}

/// The pages are those of two groups or more.
fn compare_two_blocks(
    rt: &(impl Abort + AllocGlobal),
    pages: u32,
    most_reads: u64,
) -> Result<(), Fail>
    requires least { 2048 ≤ pages }
    requires most { pages ≤ MAX_PAGES }
{
    let last = pages - 1;
    let mut tree = OrderTree::new(rt.alloc(), pages)?;
    tree.set(PageAt::at(last), order(0));
    expect_blocks(
        rt,
        &mut tree,
        most_reads,
        0,
        &[(0, Some((last, 0))), (1, None)],
    );
    tree.set(PageAt::at(0), order(10));
    expect_blocks(rt, &mut tree, most_reads, 10, &[(0, Some((0, 10)))]);
    let ranges = [
        (pages - 1024, 10, Some(0)),
        (1024, 10, None),
        (512, 9, None),
    ];
    expect_largest_in(rt, &tree, &ranges);
    tree.clear(PageAt::at(0), order(10));
    expect_blocks(rt, &mut tree, most_reads, 0, &[(0, Some((last, 0)))]);
    Ok(())
}

/// How many pages there are, and how many words are read at most: each row of ranks more has eight times as many pages below it.
const SIZES: [(u32, u64); 5] = [
    (8_192, 33),
    (65_536, 34),
    (524_288, 35),
    (4_194_304, 36),
    (16_777_216, 37),
];

#[test]
fn two_blocks_under_one_to_five_rows_of_ranks(rt: HostRuntime) -> Result<(), Fail> {
    for (pages, most_reads) in SIZES {
        assert!(rt; 2048 <= pages && pages <= MAX_PAGES);
        compare_two_blocks(&rt, pages, most_reads)?;
    }
    Ok(())
}
