//! Sessions of a host in another language against a target in another language: a line reset, the
//! opening, a word written and read back. The characters go in, and the levels have to come out.
use swd_port::Mark;

/// A session: the number of its request that meets a mark, counted from 0, the mark, what the host
/// sends and what it gets, and how many clocks and requests there are.
#[derive(Clone, Copy)]
pub(super) struct Recorded {
    pub(super) name: &'static str,
    pub(super) request: usize,
    pub(super) mark: Mark,
    pub(super) characters: &'static [u8],
    pub(super) levels: &'static [u8],
    pub(super) cycles: u64,
    pub(super) requests: u64,
}

// No marks.
pub(super) const UNDISTURBED: Recorded = Recorded {
    name: "undisturbed",
    request: 0,
    mark: Mark::Clean,
    characters: b"\
        egegegegegegegegegegegegegegegegegegegegegegegegegegegegegegegegegegegegegegegegegegegegegegegeg\
        egegegegegegegegdfegegegegdfdfegegegegdfdfegegegegegegegegegegegegegegegegegegegegegegegegegegeg\
        egegegegegegegegegegegegegegegegegegegegegegegegegegegegegegegegdfdfegdfegdfdfegdfegodfdcfdcfdcf\
        dcfdcfdcfdcfdcfdcfdcfdcfdcfdcfdcfdcfdcfdcfdcfdcfdcfdcfdcfdcfdcfdcfdcfdcfdcfdcfdcfdcfdcfdcfdcfdcf\
        dcfdfOegdfdfdfdfdfdfegodfdcfdcfdcfdfOdfegegegegdfdfdfdfdfdfdfdfdfdfdfdfdfdfdfdfdfdfdfdfdfdfdfdfd\
        fdfdfdfegdfegegdfdfdfegodfdcfdcfdcfdcfdcfdcfdcfdcfdcfdcfdcfdcfdcfdcfdcfdcfdcfdcfdcfdcfdcfdcfdcfd\
        cfdcfdcfdcfdcfdcfdcfdcfdcfdcfdcfdcfdcfdfOegdfdfdfegegdfegodfdcfdcfdcfdfOdfdfdfdfdfdfdfdfdfdfdfdf\
        dfdfdfdfdfdfdfdfdfdfdfdfdfdfdfdfdfdfdfdfdfegdfdfegdfegdfegodfdcfdcfdcfdfOdfdfdfdfdfdfdfdfdfdfdfd\
        fdfdfdfdfdfdfdfdfdfdfdfdfdfdfdfdfegdfegdfdfegdfegegdfdfdfegodfdcfdcfdcfdcfdcfdcfdcfdcfdcfdcfdcfd\
        cfdcfdcfdcfdcfdcfdcfdcfdcfdcfdcfdcfdcfdcfdcfdcfdcfdcfdcfdcfdcfdcfdcfdcfdcfdfOegegdfdfdfegdfegodf\
        dcfdcfdcfdfOdfegdfdfegdfdfdfdfdfdfdfdfdfdfdfdfdfdfdfdfdfdfdfegegdfdfdfegdfdfegegegegdfdfdfdfegod\
        fdcfdcfdcfdcfdcfdcfdcfdcfdcfdcfdcfdcfdcfdcfdcfdcfdcfdcfdcfdcfdcfdcfdcfdcfdcfdcfdcfdcfdcfdcfdcfdc\
        fdcfdcfdcfdcfdfOegdfegegegegdfegodfdcfdcfdcfdcfdcfdcfdcfdcfdcfdcfdcfdcfdcfdcfdcfdcfdcfdcfdcfdcfd\
        cfdcfdcfdcfdcfdcfdcfdcfdcfdcfdcfdcfdcfdcfdcfdcfdfOegegdfegdfdfdfegodfdcfdcfdcfdfOdfdfdfdfdfdfdfd\
        fdfdfdfdfdfdfdfdfdfdfdfdfdfdfdfdfdfdfdfdfdfegdfdfegegegdfegegegdfegodfdcfdcfdcfdfOegegegegdfegeg\
        egdfegegegegegdfegegdfegegdfegdfegdfegegegegdfegegdfegdfegegegegdfegodfdcfdcfdcfdcfdcfdcfdcfdcfd\
        cfdcfdcfdcfdcfdcfdcfdcfdcfdcfdcfdcfdcfdcfdcfdcfdcfdcfdcfdcfdcfdcfdcfdcfdcfdcfdcfdcfdfOegegdfegdf\
        dfdfegodfdcfdcfdcfdfOdfdfdfdfdfdfdfdfdfdfdfdfdfdfdfdfdfdfdfdfdfdfdfdfdfdfdfdfdfegdfdfegegegegege\
        gdfdfegodfdcfdcfdcfdcfdcfdcfdcfdcfdcfdcfdcfdcfdcfdcfdcfdcfdcfdcfdcfdcfdcfdcfdcfdcfdcfdcfdcfdcfdc\
        fdcfdcfdcfdcfdcfdcfdcfdfOegdfegegegegdfegodfdcfdcfdcfdcfdcfdcfdcfdcfdcfdcfdcfdcfdcfdcfdcfdcfdcfd\
        cfdcfdcfdcfdcfdcfdcfdcfdcfdcfdcfdcfdcfdcfdcfdcfdcfdcfdcfdfOdfdfdfdfdfdfdfdfQ",
    levels: b"\
        100111011100010100000000101110101000100100000000000000000000000000000000000100100100000000000000\
        000000000000000011110100100000000000000000000000000000000000100010010100000000000000000110001000\
        100100100000000000000000000000000000000000100100000000000000000000000000000000000100111101110111\
        110110110101011110110",
    cycles: 828,
    requests: 15,
};

// WAIT at the RDBUFF read that confirms the write.
pub(super) const WAITS: Recorded = Recorded {
    name: "waits",
    request: 11,
    mark: Mark::Wait,
    characters: b"\
        egegegegegegegegegegegegegegegegegegegegegegegegegegegegegegegegegegegegegegegegegegegegegegegeg\
        egegegegegegegegdfegegegegdfdfegegegegdfdfegegegegegegegegegegegegegegegegegegegegegegegegegegeg\
        egegegegegegegegegegegegegegegegegegegegegegegegegegegegegegegegdfdfegdfegdfdfegdfegodfdcfdcfdcf\
        dcfdcfdcfdcfdcfdcfdcfdcfdcfdcfdcfdcfdcfdcfdcfdcfdcfdcfdcfdcfdcfdcfdcfdcfdcfdcfdcfdcfdcfdcfdcfdcf\
        dcfdfOegdfdfdfdfdfdfegodfdcfdcfdcfdfOdfegegegegdfdfdfdfdfdfdfdfdfdfdfdfdfdfdfdfdfdfdfdfdfdfdfdfd\
        fdfdfdfegdfegegdfdfdfegodfdcfdcfdcfdcfdcfdcfdcfdcfdcfdcfdcfdcfdcfdcfdcfdcfdcfdcfdcfdcfdcfdcfdcfd\
        cfdcfdcfdcfdcfdcfdcfdcfdcfdcfdcfdcfdcfdfOegdfdfdfegegdfegodfdcfdcfdcfdfOdfdfdfdfdfdfdfdfdfdfdfdf\
        dfdfdfdfdfdfdfdfdfdfdfdfdfdfdfdfdfdfdfdfdfegdfdfegdfegdfegodfdcfdcfdcfdfOdfdfdfdfdfdfdfdfdfdfdfd\
        fdfdfdfdfdfdfdfdfdfdfdfdfdfdfdfdfegdfegdfdfegdfegegdfdfdfegodfdcfdcfdcfdcfdcfdcfdcfdcfdcfdcfdcfd\
        cfdcfdcfdcfdcfdcfdcfdcfdcfdcfdcfdcfdcfdcfdcfdcfdcfdcfdcfdcfdcfdcfdcfdcfdcfdfOegegdfdfdfegdfegodf\
        dcfdcfdcfdfOdfegdfdfegdfdfdfdfdfdfdfdfdfdfdfdfdfdfdfdfdfdfdfegegdfdfdfegdfdfegegegegdfdfdfdfegod\
        fdcfdcfdcfdcfdcfdcfdcfdcfdcfdcfdcfdcfdcfdcfdcfdcfdcfdcfdcfdcfdcfdcfdcfdcfdcfdcfdcfdcfdcfdcfdcfdc\
        fdcfdcfdcfdcfdfOegdfegegegegdfegodfdcfdcfdcfdcfdcfdcfdcfdcfdcfdcfdcfdcfdcfdcfdcfdcfdcfdcfdcfdcfd\
        cfdcfdcfdcfdcfdcfdcfdcfdcfdcfdcfdcfdcfdcfdcfdcfdfOegegdfegdfdfdfegodfdcfdcfdcfdfOdfdfdfdfdfdfdfd\
        fdfdfdfdfdfdfdfdfdfdfdfdfdfdfdfdfdfdfdfdfdfegdfdfegegegdfegegegdfegodfdcfdcfdcfdfOegegegegdfegeg\
        egdfegegegegegdfegegdfegegdfegdfegdfegegegegdfegegdfegdfegegegegdfegodfdcfdcfdcfdfOegegdfegdfdfd\
        fegodfdcfdcfdcfdfOdfdfdfdfdfdfdfdfdfdfdfdfdfdfdfdfdfdfdfdfdfdfdfdfdfdfdfdfdfegdfdfegegegegegegdf\
        dfegodfdcfdcfdcfdcfdcfdcfdcfdcfdcfdcfdcfdcfdcfdcfdcfdcfdcfdcfdcfdcfdcfdcfdcfdcfdcfdcfdcfdcfdcfdc\
        fdcfdcfdcfdcfdcfdcfdfOegdfegegegegdfegodfdcfdcfdcfdcfdcfdcfdcfdcfdcfdcfdcfdcfdcfdcfdcfdcfdcfdcfd\
        cfdcfdcfdcfdcfdcfdcfdcfdcfdcfdcfdcfdcfdcfdcfdcfdcfdcfdfOdfdfdfdfdfdfdfdfQ",
    levels: b"\
        100111011100010100000000101110101000100100000000000000000000000000000000000100100100000000000000\
        000000000000000011110100100000000000000000000000000000000000100010010100000000000000000110001000\
        100100010100100000000000000000000000000000000000100111101110111110110110101011110110",
    cycles: 795,
    requests: 15,
};

// Bit 3 of the last word that is read arrives changed.
pub(super) const FLIPPED_READ: Recorded = Recorded {
    name: "flipped read",
    request: 14,
    mark: Mark::Flip(3),
    characters: b"\
        egegegegegegegegegegegegegegegegegegegegegegegegegegegegegegegegegegegegegegegegegegegegegegegeg\
        egegegegegegegegdfegegegegdfdfegegegegdfdfegegegegegegegegegegegegegegegegegegegegegegegegegegeg\
        egegegegegegegegegegegegegegegegegegegegegegegegegegegegegegegegdfdfegdfegdfdfegdfegodfdcfdcfdcf\
        dcfdcfdcfdcfdcfdcfdcfdcfdcfdcfdcfdcfdcfdcfdcfdcfdcfdcfdcfdcfdcfdcfdcfdcfdcfdcfdcfdcfdcfdcfdcfdcf\
        dcfdfOegdfdfdfdfdfdfegodfdcfdcfdcfdfOdfegegegegdfdfdfdfdfdfdfdfdfdfdfdfdfdfdfdfdfdfdfdfdfdfdfdfd\
        fdfdfdfegdfegegdfdfdfegodfdcfdcfdcfdcfdcfdcfdcfdcfdcfdcfdcfdcfdcfdcfdcfdcfdcfdcfdcfdcfdcfdcfdcfd\
        cfdcfdcfdcfdcfdcfdcfdcfdcfdcfdcfdcfdcfdfOegdfdfdfegegdfegodfdcfdcfdcfdfOdfdfdfdfdfdfdfdfdfdfdfdf\
        dfdfdfdfdfdfdfdfdfdfdfdfdfdfdfdfdfdfdfdfdfegdfdfegdfegdfegodfdcfdcfdcfdfOdfdfdfdfdfdfdfdfdfdfdfd\
        fdfdfdfdfdfdfdfdfdfdfdfdfdfdfdfdfegdfegdfdfegdfegegdfdfdfegodfdcfdcfdcfdcfdcfdcfdcfdcfdcfdcfdcfd\
        cfdcfdcfdcfdcfdcfdcfdcfdcfdcfdcfdcfdcfdcfdcfdcfdcfdcfdcfdcfdcfdcfdcfdcfdcfdfOegegdfdfdfegdfegodf\
        dcfdcfdcfdfOdfegdfdfegdfdfdfdfdfdfdfdfdfdfdfdfdfdfdfdfdfdfdfegegdfdfdfegdfdfegegegegdfdfdfdfegod\
        fdcfdcfdcfdcfdcfdcfdcfdcfdcfdcfdcfdcfdcfdcfdcfdcfdcfdcfdcfdcfdcfdcfdcfdcfdcfdcfdcfdcfdcfdcfdcfdc\
        fdcfdcfdcfdcfdfOegdfegegegegdfegodfdcfdcfdcfdcfdcfdcfdcfdcfdcfdcfdcfdcfdcfdcfdcfdcfdcfdcfdcfdcfd\
        cfdcfdcfdcfdcfdcfdcfdcfdcfdcfdcfdcfdcfdcfdcfdcfdfOegegdfegdfdfdfegodfdcfdcfdcfdfOdfdfdfdfdfdfdfd\
        fdfdfdfdfdfdfdfdfdfdfdfdfdfdfdfdfdfdfdfdfdfegdfdfegegegdfegegegdfegodfdcfdcfdcfdfOegegegegdfegeg\
        egdfegegegegegdfegegdfegegdfegdfegdfegegegegdfegegdfegdfegegegegdfegodfdcfdcfdcfdcfdcfdcfdcfdcfd\
        cfdcfdcfdcfdcfdcfdcfdcfdcfdcfdcfdcfdcfdcfdcfdcfdcfdcfdcfdcfdcfdcfdcfdcfdcfdcfdcfdcfdfOegegdfegdf\
        dfdfegodfdcfdcfdcfdfOdfdfdfdfdfdfdfdfdfdfdfdfdfdfdfdfdfdfdfdfdfdfdfdfdfdfdfdfdfegdfdfegegegegege\
        gdfdfegodfdcfdcfdcfdcfdcfdcfdcfdcfdcfdcfdcfdcfdcfdcfdcfdcfdcfdcfdcfdcfdcfdcfdcfdcfdcfdcfdcfdcfdc\
        fdcfdcfdcfdcfdcfdcfdcfdfOegdfegegegegdfegodfdcfdcfdcfdcfdcfdcfdcfdcfdcfdcfdcfdcfdcfdcfdcfdcfdcfd\
        cfdcfdcfdcfdcfdcfdcfdcfdcfdcfdcfdcfdcfdcfdcfdcfdcfdcfdcfdfOdfdfdfdfdfdfdfdfQ",
    levels: b"\
        100111011100010100000000101110101000100100000000000000000000000000000000000100100100000000000000\
        000000000000000011110100100000000000000000000000000000000000100010010100000000000000000110001000\
        100100100000000000000000000000000000000000100100000000000000000000000000000000000100111001110111\
        110110110101011110110",
    cycles: 828,
    requests: 15,
};

// Bit 5 of the written word arrives changed: WDATAERR, and FAULT from then on.
pub(super) const FLIPPED_WRITE: Recorded = Recorded {
    name: "flipped write",
    request: 10,
    mark: Mark::Flip(5),
    characters: b"\
        egegegegegegegegegegegegegegegegegegegegegegegegegegegegegegegegegegegegegegegegegegegegegegegeg\
        egegegegegegegegdfegegegegdfdfegegegegdfdfegegegegegegegegegegegegegegegegegegegegegegegegegegeg\
        egegegegegegegegegegegegegegegegegegegegegegegegegegegegegegegegdfdfegdfegdfdfegdfegodfdcfdcfdcf\
        dcfdcfdcfdcfdcfdcfdcfdcfdcfdcfdcfdcfdcfdcfdcfdcfdcfdcfdcfdcfdcfdcfdcfdcfdcfdcfdcfdcfdcfdcfdcfdcf\
        dcfdfOegdfdfdfdfdfdfegodfdcfdcfdcfdfOdfegegegegdfdfdfdfdfdfdfdfdfdfdfdfdfdfdfdfdfdfdfdfdfdfdfdfd\
        fdfdfdfegdfegegdfdfdfegodfdcfdcfdcfdcfdcfdcfdcfdcfdcfdcfdcfdcfdcfdcfdcfdcfdcfdcfdcfdcfdcfdcfdcfd\
        cfdcfdcfdcfdcfdcfdcfdcfdcfdcfdcfdcfdcfdfOegdfdfdfegegdfegodfdcfdcfdcfdfOdfdfdfdfdfdfdfdfdfdfdfdf\
        dfdfdfdfdfdfdfdfdfdfdfdfdfdfdfdfdfdfdfdfdfegdfdfegdfegdfegodfdcfdcfdcfdfOdfdfdfdfdfdfdfdfdfdfdfd\
        fdfdfdfdfdfdfdfdfdfdfdfdfdfdfdfdfegdfegdfdfegdfegegdfdfdfegodfdcfdcfdcfdcfdcfdcfdcfdcfdcfdcfdcfd\
        cfdcfdcfdcfdcfdcfdcfdcfdcfdcfdcfdcfdcfdcfdcfdcfdcfdcfdcfdcfdcfdcfdcfdcfdcfdfOegegdfdfdfegdfegodf\
        dcfdcfdcfdfOdfegdfdfegdfdfdfdfdfdfdfdfdfdfdfdfdfdfdfdfdfdfdfegegdfdfdfegdfdfegegegegdfdfdfdfegod\
        fdcfdcfdcfdcfdcfdcfdcfdcfdcfdcfdcfdcfdcfdcfdcfdcfdcfdcfdcfdcfdcfdcfdcfdcfdcfdcfdcfdcfdcfdcfdcfdc\
        fdcfdcfdcfdcfdfOegdfegegegegdfegodfdcfdcfdcfdcfdcfdcfdcfdcfdcfdcfdcfdcfdcfdcfdcfdcfdcfdcfdcfdcfd\
        cfdcfdcfdcfdcfdcfdcfdcfdcfdcfdcfdcfdcfdcfdcfdcfdfOegegdfegdfdfdfegodfdcfdcfdcfdfOdfdfdfdfdfdfdfd\
        fdfdfdfdfdfdfdfdfdfdfdfdfdfdfdfdfdfdfdfdfdfegdfdfegegegdfegegegdfegodfdcfdcfdcfdfOegegegegdfegeg\
        egdfegegegegegdfegegdfegegdfegdfegdfegegegegdfegegdfegdfegegegegdfegodfdcfdcfdcfdfOegegdfegdfdfd\
        fegodfdcfdcfdcfdfOegegegegegdfdfegodfdcfdcfdcfdfOegdfegegegegdfegodfdcfdcfdcfdfOdfdfdfdfdfdfdfdf\
        Q",
    levels: b"\
        100111011100010100000000101110101000100100000000000000000000000000000000000100100100000000000000\
        000000000000000011110100100000000000000000000000000000000000100010010100000000000000000110001000\
        100100001001001001",
    cycles: 696,
    requests: 15,
};

// The target doesn't see the second write of TAR.
pub(super) const DEAF: Recorded = Recorded {
    name: "deaf",
    request: 12,
    mark: Mark::Deaf,
    characters: b"\
        egegegegegegegegegegegegegegegegegegegegegegegegegegegegegegegegegegegegegegegegegegegegegegegeg\
        egegegegegegegegdfegegegegdfdfegegegegdfdfegegegegegegegegegegegegegegegegegegegegegegegegegegeg\
        egegegegegegegegegegegegegegegegegegegegegegegegegegegegegegegegdfdfegdfegdfdfegdfegodfdcfdcfdcf\
        dcfdcfdcfdcfdcfdcfdcfdcfdcfdcfdcfdcfdcfdcfdcfdcfdcfdcfdcfdcfdcfdcfdcfdcfdcfdcfdcfdcfdcfdcfdcfdcf\
        dcfdfOegdfdfdfdfdfdfegodfdcfdcfdcfdfOdfegegegegdfdfdfdfdfdfdfdfdfdfdfdfdfdfdfdfdfdfdfdfdfdfdfdfd\
        fdfdfdfegdfegegdfdfdfegodfdcfdcfdcfdcfdcfdcfdcfdcfdcfdcfdcfdcfdcfdcfdcfdcfdcfdcfdcfdcfdcfdcfdcfd\
        cfdcfdcfdcfdcfdcfdcfdcfdcfdcfdcfdcfdcfdfOegdfdfdfegegdfegodfdcfdcfdcfdfOdfdfdfdfdfdfdfdfdfdfdfdf\
        dfdfdfdfdfdfdfdfdfdfdfdfdfdfdfdfdfdfdfdfdfegdfdfegdfegdfegodfdcfdcfdcfdfOdfdfdfdfdfdfdfdfdfdfdfd\
        fdfdfdfdfdfdfdfdfdfdfdfdfdfdfdfdfegdfegdfdfegdfegegdfdfdfegodfdcfdcfdcfdcfdcfdcfdcfdcfdcfdcfdcfd\
        cfdcfdcfdcfdcfdcfdcfdcfdcfdcfdcfdcfdcfdcfdcfdcfdcfdcfdcfdcfdcfdcfdcfdcfdcfdfOegegdfdfdfegdfegodf\
        dcfdcfdcfdfOdfegdfdfegdfdfdfdfdfdfdfdfdfdfdfdfdfdfdfdfdfdfdfegegdfdfdfegdfdfegegegegdfdfdfdfegod\
        fdcfdcfdcfdcfdcfdcfdcfdcfdcfdcfdcfdcfdcfdcfdcfdcfdcfdcfdcfdcfdcfdcfdcfdcfdcfdcfdcfdcfdcfdcfdcfdc\
        fdcfdcfdcfdcfdfOegdfegegegegdfegodfdcfdcfdcfdcfdcfdcfdcfdcfdcfdcfdcfdcfdcfdcfdcfdcfdcfdcfdcfdcfd\
        cfdcfdcfdcfdcfdcfdcfdcfdcfdcfdcfdcfdcfdcfdcfdcfdfOegegdfegdfdfdfegodfdcfdcfdcfdfOdfdfdfdfdfdfdfd\
        fdfdfdfdfdfdfdfdfdfdfdfdfdfdfdfdfdfdfdfdfdfegdfdfegegegdfegegegdfegodfdcfdcfdcfdfOegegegegdfegeg\
        egdfegegegegegdfegegdfegegdfegdfegdfegegegegdfegegdfegdfegegegegdfegodfdcfdcfdcfdcfdcfdcfdcfdcfd\
        cfdcfdcfdcfdcfdcfdcfdcfdcfdcfdcfdcfdcfdcfdcfdcfdcfdcfdcfdcfdcfdcfdcfdcfdcfdcfdcfdcfdfOegegdfegdf\
        dfdfegodfdcfdcfdcfOegegegegegdfdfegodfdcfdcfdcfdcfdcfdcfdcfdcfdcfdcfdcfdcfdcfdcfdcfdcfdcfdcfdcfd\
        cfdcfdcfdcfdcfdcfdcfdcfdcfdcfdcfdcfdcfdcfdcfdcfdcfdfOegdfegegegegdfegodfdcfdcfdcfdcfdcfdcfdcfdcf\
        dcfdcfdcfdcfdcfdcfdcfdcfdcfdcfdcfdcfdcfdcfdcfdcfdcfdcfdcfdcfdcfdcfdcfdcfdcfdcfdcfdcfdfOdfdfdfdfd\
        fdfdfdfQ",
    levels: b"\
        100111011100010100000000101110101000100100000000000000000000000000000000000100100100000000000000\
        000000000000000011110100100000000000000000000000000000000000100010010100000000000000000110001000\
        100100100000000000000000000000000000000000111100000000000000000000000000000000000100000000000000\
        000000000000000000000",
    cycles: 794,
    requests: 15,
};

// Bit 1 of the acknowledgement of the DRW read is seen changed.
pub(super) const MUTE: Recorded = Recorded {
    name: "mute",
    request: 13,
    mark: Mark::Mute(1),
    characters: b"\
        egegegegegegegegegegegegegegegegegegegegegegegegegegegegegegegegegegegegegegegegegegegegegegegeg\
        egegegegegegegegdfegegegegdfdfegegegegdfdfegegegegegegegegegegegegegegegegegegegegegegegegegegeg\
        egegegegegegegegegegegegegegegegegegegegegegegegegegegegegegegegdfdfegdfegdfdfegdfegodfdcfdcfdcf\
        dcfdcfdcfdcfdcfdcfdcfdcfdcfdcfdcfdcfdcfdcfdcfdcfdcfdcfdcfdcfdcfdcfdcfdcfdcfdcfdcfdcfdcfdcfdcfdcf\
        dcfdfOegdfdfdfdfdfdfegodfdcfdcfdcfdfOdfegegegegdfdfdfdfdfdfdfdfdfdfdfdfdfdfdfdfdfdfdfdfdfdfdfdfd\
        fdfdfdfegdfegegdfdfdfegodfdcfdcfdcfdcfdcfdcfdcfdcfdcfdcfdcfdcfdcfdcfdcfdcfdcfdcfdcfdcfdcfdcfdcfd\
        cfdcfdcfdcfdcfdcfdcfdcfdcfdcfdcfdcfdcfdfOegdfdfdfegegdfegodfdcfdcfdcfdfOdfdfdfdfdfdfdfdfdfdfdfdf\
        dfdfdfdfdfdfdfdfdfdfdfdfdfdfdfdfdfdfdfdfdfegdfdfegdfegdfegodfdcfdcfdcfdfOdfdfdfdfdfdfdfdfdfdfdfd\
        fdfdfdfdfdfdfdfdfdfdfdfdfdfdfdfdfegdfegdfdfegdfegegdfdfdfegodfdcfdcfdcfdcfdcfdcfdcfdcfdcfdcfdcfd\
        cfdcfdcfdcfdcfdcfdcfdcfdcfdcfdcfdcfdcfdcfdcfdcfdcfdcfdcfdcfdcfdcfdcfdcfdcfdfOegegdfdfdfegdfegodf\
        dcfdcfdcfdfOdfegdfdfegdfdfdfdfdfdfdfdfdfdfdfdfdfdfdfdfdfdfdfegegdfdfdfegdfdfegegegegdfdfdfdfegod\
        fdcfdcfdcfdcfdcfdcfdcfdcfdcfdcfdcfdcfdcfdcfdcfdcfdcfdcfdcfdcfdcfdcfdcfdcfdcfdcfdcfdcfdcfdcfdcfdc\
        fdcfdcfdcfdcfdfOegdfegegegegdfegodfdcfdcfdcfdcfdcfdcfdcfdcfdcfdcfdcfdcfdcfdcfdcfdcfdcfdcfdcfdcfd\
        cfdcfdcfdcfdcfdcfdcfdcfdcfdcfdcfdcfdcfdcfdcfdcfdfOegegdfegdfdfdfegodfdcfdcfdcfdfOdfdfdfdfdfdfdfd\
        fdfdfdfdfdfdfdfdfdfdfdfdfdfdfdfdfdfdfdfdfdfegdfdfegegegdfegegegdfegodfdcfdcfdcfdfOegegegegdfegeg\
        egdfegegegegegdfegegdfegegdfegdfegdfegegegegdfegegdfegdfegegegegdfegodfdcfdcfdcfdcfdcfdcfdcfdcfd\
        cfdcfdcfdcfdcfdcfdcfdcfdcfdcfdcfdcfdcfdcfdcfdcfdcfdcfdcfdcfdcfdcfdcfdcfdcfdcfdcfdcfdfOegegdfegdf\
        dfdfegodfdcfdcfdcfdfOdfdfdfdfdfdfdfdfdfdfdfdfdfdfdfdfdfdfdfdfdfdfdfdfdfdfdfdfdfegdfdfegegegegege\
        gdfdfegodfdcfdcfdcfOegdfegegegegdfegodfdcfdcfdcfOdfdfdfdfdfdfdfdfQ",
    levels: b"\
        100111011100010100000000101110101000100100000000000000000000000000000000000100100100000000000000\
        000000000000000011110100100000000000000000000000000000000000100010010100000000000000000110001000\
        100100100000000000000000000000000000000000100110000",
    cycles: 760,
    requests: 14,
};
