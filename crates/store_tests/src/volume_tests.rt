// The numbers that the definitions came from, worked out by hand.
use crate::comparing::{same, same_at};
use bytes::Bytes;
use std::process::Abort;
use volume::{Geometry, Piece, Refusal, Write, patch, pieces};

const VOLUME: u64 = 268_435_456;

const fn piece(block: u32, start: usize, from: usize, len: usize) -> Piece {
    Piece {
        block,
        start,
        from,
        len,
    }
}

fn pieces_are(rt: &impl Abort, offset: u64, len: u32, expected: &[Piece]) {
    assert!(rt; offset <= VOLUME && u64::from(len) <= VOLUME - offset);
    let mut wanted = expected.iter().copied();
    for found in pieces(offset, len) {
        same_at(rt, Some(found), wanted.next(), (offset, len));
    }
    same_at(rt, wanted.next(), None, (offset, len));
}

#[test]
fn pieces_at_the_ends_of_blocks(rt: HostRuntime) {
    pieces_are(&rt, 0, 0, &[]);
    pieces_are(&rt, 4_096, 0, &[]);
    pieces_are(&rt, VOLUME, 0, &[]);
    pieces_are(&rt, 0, 1, &[piece(0, 0, 0, 1)]);
    pieces_are(&rt, 4_095, 1, &[piece(0, 4_095, 0, 1)]);
    pieces_are(&rt, 4_095, 2, &[piece(0, 4_095, 0, 1), piece(1, 0, 1, 1)]);
    pieces_are(&rt, 4_096, 4_096, &[piece(1, 0, 0, 4_096)]);
    pieces_are(
        &rt,
        1,
        4_096,
        &[piece(0, 1, 0, 4_095), piece(1, 0, 4_095, 1)],
    );
    pieces_are(
        &rt,
        0,
        8_192,
        &[piece(0, 0, 0, 4_096), piece(1, 0, 4_096, 4_096)],
    );
    pieces_are(&rt, VOLUME - 4_096, 4_096, &[piece(65_535, 0, 0, 4_096)]);
    pieces_are(&rt, VOLUME - 1, 1, &[piece(65_535, 4_095, 0, 1)]);
}

// The largest payload, one byte past a block's start.
#[test]
fn pieces_of_257_blocks(rt: HostRuntime) {
    let found: Vec<Piece> = pieces(1, 1_048_576)
        .collect(rt.alloc())
        .expect(&rt, "memory");
    assert!(rt; found.len() == 257);
    same(&rt, found[0], piece(0, 1, 0, 4_095));
    same(&rt, found[1], piece(1, 0, 4_095, 4_096));
    same(&rt, found[255], piece(255, 0, 1_044_479, 4_096));
    same(&rt, found[256], piece(256, 0, 1_048_575, 1));
}

// Blocks, an area and the largest payload, and what `Geometry::new` says of them.
const GEOMETRIES: [(u32, u32, u32, Result<u64, u16>); 17] = [
    (8, 8_214, 4_096, Ok(32_768)),
    (8, 8_213, 4_096, Err(113)),
    (8, 1_053_714, 1_048_576, Ok(32_768)),
    (8, 1_053_713, 1_048_576, Err(113)),
    (1, 8_214, 4_096, Ok(4_096)),
    (65_536, 8_214, 4_096, Ok(268_435_456)),
    (65_537, 8_214, 4_096, Err(111)),
    (0, 8_214, 4_096, Err(111)),
    (8, 8_214, 2_048, Err(112)),
    (8, 8_214, 4_097, Err(112)),
    (8, 4_294_967_295, 12_288, Err(112)),
    (8, 4_294_967_295, 2_097_152, Err(112)),
    (8, 4_294_967_295, 0, Err(112)),
    (8, 12_314, 8_192, Ok(32_768)),
    (0, 0, 0, Err(111)),
    (1, 0, 0, Err(112)),
    (1, 0, 4_096, Err(113)),
];

#[test]
fn geometries(rt: HostRuntime) {
    for (blocks, area, max_payload, expected) in &GEOMETRIES {
        let said = Geometry::new(*blocks, *area, *max_payload)
            .map(Geometry::size)
            .map_err(Refusal::number);
        same_at(&rt, said, *expected, (blocks, area, max_payload));
    }
}

#[test]
fn ranges_of_the_volume(rt: HostRuntime) {
    let geometry = Geometry::new(8, 8_214, 4_096).expect(&rt, "a geometry");
    assert!(rt; geometry.contains(0, 32_768));
    assert!(rt; geometry.contains(32_768, 0));
    assert!(rt; geometry.contains(32_767, 1));
    assert!(rt; !geometry.contains(32_768, 1));
    assert!(rt; !geometry.contains(32_769, 0));
    assert!(rt; !geometry.contains(u64::MAX, u64::MAX));
}

#[test]
fn refusals_in_words(rt: HostRuntime) {
    let words = format!(in rt.alloc();
        "{}, {}, {}",
        Refusal::BadBlocks,
        Refusal::BadPayload,
        Refusal::AreaTooSmall
    )
    .expect(&rt, "memory");
    same(
        &rt,
        words.as_str(),
        "111 BadBlocks, 112 BadPayload, 113 AreaTooSmall",
    );
}

// Five bytes over the end of block 1.
#[test]
fn patches(rt: HostRuntime) {
    let payload = Bytes::copy_from_slice(rt.alloc(), &[1, 2, 3, 4, 5]).expect(&rt, "memory");
    let write = Write::new(8_189, payload);
    same(&rt, (write.offset(), write.len()), (8_189, 5));
    for (block, front, back) in &[
        (0, [9, 9, 9], [9, 9, 9]),
        (1, [9, 9, 9], [1, 2, 3]),
        (2, [4, 5, 9], [9, 9, 9]),
        (3, [9, 9, 9], [9, 9, 9]),
    ] {
        let mut bytes = [9; 4_096];
        patch(&mut bytes, &write, *block);
        same_at(&rt, &bytes[..3], front.as_slice(), block);
        same_at(&rt, &bytes[4_093..], back.as_slice(), block);
        same_at(&rt, &bytes[3..4_093], [9; 4_090].as_slice(), block);
    }
}
