use serial_model::Number;
use wire_form::{Clock, Header, Mark, Pair, RecordWord, SlotState, SlotWord};

const FIRST: Number = Number { epoch: 1, draw: 1 };

fn clock_at(word: u64) -> Option<Clock> {
    Clock::parts(word)
}

fn mark_at(word: u64) -> Option<Mark> {
    Mark::parts(word)
}

fn record_at(word: u64) -> Option<RecordWord> {
    RecordWord::parts(word)
}

fn header_at(word: u64) -> Option<Header> {
    Header::parts(word)
}

fn pair_at(word: u64) -> Option<Pair> {
    Pair::parts(word)
}

fn slot_at(word: u64) -> Option<SlotWord> {
    SlotWord::parts(word)
}

// The word of a value, if its fields are in their ranges.
fn clock_word(clock: Clock) -> Option<u64> {
    if clock.is_valid() {
        Some(clock.pack())
    } else {
        None
    }
}

fn record_word(record: RecordWord) -> Option<u64> {
    if record.is_valid() {
        Some(record.pack())
    } else {
        None
    }
}

fn pair_word(pair: Pair) -> Option<u64> {
    if pair.is_valid() {
        Some(pair.pack())
    } else {
        None
    }
}

fn slot_word(slot: SlotWord) -> Option<u64> {
    if slot.is_valid() {
        Some(slot.pack())
    } else {
        None
    }
}

const CLOCK: Clock = Clock { draws: 1, epoch: 1 };

const LOCKED: RecordWord = RecordWord {
    number: Some(FIRST),
    lock: true,
    absent: false,
};

const PAIR: Pair = Pair {
    page: 2,
    slot: Some(0),
    shut: false,
};

const SLOTS: [(SlotWord, u64); 4] = [
    (
        SlotWord {
            passes: 1,
            state: SlotState::Published,
            times: 1,
        },
        0x60001,
    ),
    (
        SlotWord {
            passes: 1,
            state: SlotState::Retired,
            times: 1,
        },
        0x70001,
    ),
    (
        SlotWord {
            passes: 0,
            state: SlotState::Owned,
            times: 2,
        },
        0x90000,
    ),
    (
        SlotWord {
            passes: 0,
            state: SlotState::Free,
            times: 0,
        },
        0,
    ),
];

// Packed by hand from the tables of bits.
#[test]
fn worked_words(rt: HostRuntime) {
    assert!(rt; clock_word(CLOCK) == Some(1_099_511_627_777));
    assert!(rt; clock_at(0x0000_0100_0000_0001) == Some(CLOCK));
    assert!(rt; record_word(LOCKED) == Some(1_152_922_604_118_474_753));
    assert!(rt; record_at(0x1000_0100_0000_0001) == Some(LOCKED));
    assert!(rt; pair_word(PAIR) == Some(4_294_967_298));
    assert!(rt; pair_at(0x0000_0001_0000_0002) == Some(PAIR));
    for (slot, word) in &SLOTS {
        assert!(rt; slot_word(*slot) == Some(*word));
        assert!(rt; slot_at(*word) == Some(*slot));
    }
}

const NEVER: RecordWord = RecordWord {
    number: None,
    lock: false,
    absent: false,
};

const NEW: RecordWord = RecordWord {
    number: None,
    lock: false,
    absent: true,
};

const IDLE: Mark = Mark {
    length: 40,
    epoch: None,
};

const LOCKED_HEADER: Header = Header {
    count: 2,
    kind: 2,
    lock: true,
    moved: false,
};

#[test]
fn special_words(rt: HostRuntime) {
    assert!(rt; record_at(0) == Some(NEVER));
    assert!(rt; record_at(0x2000_0000_0000_0000) == Some(NEW));
    assert!(rt; mark_at(0x0FFF_FF00_0000_0028) == Some(IDLE));
    assert!(rt; header_at(0x1000_0000_0000_0202) == Some(LOCKED_HEADER));
}

const NO_RECORDS: [u64; 4] = [
    1, // epoch 0
    1 << 40, // draw 0
    0x0FFF_FF00_0000_0001, // the last epoch
    0x4000_0100_0000_0001, // bit 62
];

const NO_HEADERS: [u64; 7] = [
    0, // no kind
    0x0111, // a leaf of 17 records
    0x0201, // an interior page of 1 child
    0x021F, // an interior page of 31 children
    0x4000_0000_0000_0202, // a moved interior page
    0x2000_0000_0000_0101, // bit 61
    0x0001_0101, // bit 16
];

const NO_PAIRS: [u64; 4] = [
    65_537, // no such page
    4097 << 32, // no such slot
    1 << 48, // bit 48
    1 << 61, // bit 61
];

// One rule of each word broken once.
#[test]
fn no_words(rt: HostRuntime) {
    assert!(rt; clock_at(1 << 60).is_none(), "a bit above the epoch");
    assert!(rt; mark_at(1 << 63).is_none(), "a bit above the epoch");
    for word in &NO_RECORDS {
        assert!(rt; record_at(*word).is_none());
    }
    for word in &NO_HEADERS {
        assert!(rt; header_at(*word).is_none());
    }
    for word in &NO_PAIRS {
        assert!(rt; pair_at(*word).is_none());
    }
}
