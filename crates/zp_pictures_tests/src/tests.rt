//! What maps and tables of types say of zones, and what is said of texts that are no traces.
use std::alloc::Global;
use zp_drawing::MapStyle;
use zp_pictures::{MapOptions, print_map, print_pagetypeinfo};

/// A trace, the last of its lines that counts, and its map in ASCII.
const MAPS: [(&str, usize, &str); 5] = [
    // no request; the last pageblock is short
    (
        "zone DMA 0 13 0 2\nworkers 1\nlists 0 0\n",
        99,
        "zone DMA: 13 pages from 0, 4 a pageblock, 1 a cell\n    0 M  ....\n    1 M  ....\n    2 M  ....\n    3 M  0\nlargest free block: order 2, 4 pages\nin the way of order 2: 0 of 4 pages in use, 0 to 3\n",
    ),
    // blocks of two workers, one posted
    (
        "zone DMA 0 13 0 2\nworkers 2\nlists 0 0\n0 alloc a 0 M DMA low\n0 alloc b 0 M DMA low\n1 alloc c 1 M DMA low\n1 post c 0\n",
        99,
        "zone DMA: 13 pages from 0, 4 a pageblock, 1 a cell\n    0 M  ....\n    1 M  ....\n    2 M  A0**\n    3 M  A\nworker 0: out 2, cached 0, posted 2\nlargest free block: order 2, 4 pages\nin the way of order 2: 0 of 4 pages in use, 0 to 3\n",
    ),
    // only the first request counts
    (
        "zone DMA 0 13 0 2\nworkers 2\nlists 0 0\n0 alloc a 0 M DMA low\n0 alloc b 0 M DMA low\n1 alloc c 1 M DMA low\n1 post c 0\n",
        4,
        "zone DMA: 13 pages from 0, 4 a pageblock, 1 a cell\n    0 M  ....\n    1 M  ....\n    2 M  ....\n    3 M  A\nworker 0: out 1, cached 0, posted 0\nlargest free block: order 2, 4 pages\nin the way of order 2: 0 of 4 pages in use, 0 to 3\n",
    ),
    // a page of a list stands in the way, and an isolated pageblock; the zone does not begin at page 0
    (
        "zone DMA 1024 8 0 2\nworkers 1\nlists 2 4\n0 alloc a 0 M DMA any\n0 isolate DMA 0\n",
        99,
        "zone DMA: 8 pages from 1024, 4 a pageblock, 1 a cell\n    0 I  ....\n    1 M  Aa11\nworker 0: out 1, cached 1, posted 0\nlargest free block: order 2, 4 pages\nin the way of order 2: 0 of 4 pages in use, 1024 to 1027\n",
    ),
    (
        "zone DMA 0 13 0 2\nworkers 1\nlists 0 1\n",
        99,
        "bad line 3\n",
    ),
];

/// A trace, and the tables of its zones.
const TABLES: [(&str, &str); 2] = [
    (
        "zone DMA 0 13 0 2\nzone Normal 1024 4 0 1\nworkers 1\nlists 0 0\n0 alloc a 0 U DMA low\n",
        "Page block order: 2\nPages per block:  4\n\nFree pages count per migrate type at order       0      1      2 \nNode    0, zone      DMA, type    Unmovable      1      1      0 \nNode    0, zone      DMA, type      Movable      1      0      2 \nNode    0, zone      DMA, type  Reclaimable      0      0      0 \nNode    0, zone      DMA, type      Isolate      0      0      0 \nNode    0, zone   Normal, type    Unmovable      0      0      0 \nNode    0, zone   Normal, type      Movable      0      2      0 \nNode    0, zone   Normal, type  Reclaimable      0      0      0 \nNode    0, zone   Normal, type      Isolate      0      0      0 \n\nNumber of blocks type     Unmovable      Movable  Reclaimable      Isolate \nNode 0, zone      DMA            1            3            0            0 \nNode 0, zone   Normal            0            2            0            0 \n",
    ),
    ("zone DMA 0 13 0 2\nworkers 0\n", "bad line 2\n"),
];

/// The map of a trace, in ASCII, after its first lines.
fn map_of(alloc: Global, text: &str, line: usize) -> Option<Vec<u8>> {
    let mut out = Vec::new(alloc);
    let style = MapStyle {
        width: 80,
        ascii: true,
        colour: false,
        order: None,
    };
    let options = MapOptions {
        line: Some(line),
        style,
    };
    match print_map(alloc, text.as_bytes(), &options, &mut out) {
        Ok(_) => Some(out),
        Err(_) => None,
    }
}

/// The tables of a trace.
fn tables_of(alloc: Global, text: &str) -> Option<Vec<u8>> {
    let mut out = Vec::new(alloc);
    match print_pagetypeinfo(alloc, text.as_bytes(), None, &mut out) {
        Ok(_) => Some(out),
        Err(_) => None,
    }
}

/// Whether this was written.
fn is_text(out: &Option<Vec<u8>>, text: &str) -> bool {
    match out {
        Some(bytes) => bytes.as_slice() == text.as_bytes(),
        None => false,
    }
}

#[test]
fn maps(rt: HostRuntime) {
    for (text, line, map) in MAPS.iter() {
        let out = map_of(rt.alloc(), text, *line);
        assert!(rt; is_text(&out, map));
    }
}

#[test]
fn tables(rt: HostRuntime) {
    for (text, tables) in TABLES.iter() {
        let out = tables_of(rt.alloc(), text);
        assert!(rt; is_text(&out, tables));
    }
}
