//! A text read and sent, with ends that fail once and then go on.
use super::expect::expect_eq;
use std::io;
use std::test::Fail;
use swd_fakes::{FailingReader, OneByteReader, OneByteWriter, ShortWriter};
use swd_io::{Consumer, Unread, Unsent, read_pieces, send};

// Keeps what it takes, and stops at a full stop.
#[derive(Drop)]
struct Sentence {
    text: Vec<u8>,
}

impl Consumer<()> for Sentence {
    type Fault = usize;

    ghost can_take = { λ _. Unit {0} };

    ghost takes = { λ _ _ _. Unit {0} };

    ghost stops = { λ _ _ _ _. Unit {0} };

    fn take(&mut self, _writer: &mut (), piece: &[u8]) -> Result<(), usize> {
        for byte in piece {
            if *byte == b'.' || self.text.push(*byte).is_err() {
                return Err(self.text.len());
            }
        }
        Ok(())
    }

    ghost takes_nothing = { λ _. tt };

    ghost takes_on = { λ _ _ _ _ _ _ _. tt };

    ghost stops_later = { λ _ _ _ _ _ _ _ _. tt };
}

fn read_of(rt: &HostRuntime, fails_at: usize) -> (Result<(), Unread<usize>>, Vec<u8>) {
    let mut reader = FailingReader::new(b"one. two", fails_at);
    let mut sentence = Sentence {
        text: Vec::new(rt.alloc()),
    };
    let answer = read_pieces(&mut reader, &mut (), &mut sentence);
    (answer, sentence.text)
}

#[test]
fn a_text_is_read_up_to_a_fault(rt: HostRuntime) {
    for fails_at in 0..9usize {
        let (answer, text) = read_of(&rt, fails_at);
        if fails_at < 4 {
            expect_eq(&rt, &answer, &Err(Unread::Reader));
            expect_eq(&rt, &text.as_slice().len(), &fails_at);
        } else {
            expect_eq(&rt, &answer, &Err(Unread::Consumer(3)));
            expect_eq(&rt, &text.as_slice(), &b"one".as_slice());
        }
    }
}

#[test]
fn a_consumer_has_its_own_fault(rt: HostRuntime) {
    let reader: Unread<u8> = Unread::Reader;
    expect_eq(&rt, &reader.fault_or(7), &7);
    expect_eq(&rt, &Unread::Consumer(3u8).fault_or(7), &3);
}

#[test]
fn the_error_that_is_told_is_the_writers(rt: HostRuntime) -> Result<(), Fail> {
    for room in 0..5usize {
        for fails in [false, true] {
            let mut writer = ShortWriter::new(rt.alloc(), room, fails);
            let unsent = send(&mut writer, b"hello").err().ok_or("all went out")?;
            let kind = if fails {
                io::ErrorKind::BrokenPipe
            } else {
                io::ErrorKind::WriteZero
            };
            expect_eq(&rt, &unsent.sent, &room);
            assert!(rt; unsent.error.kind() == kind);
            expect_eq(&rt, &writer.taken().len(), &room);
        }
    }
    Ok(())
}

// However often a reader gives one byte, or a writer takes one, nothing gives up.
#[test]
fn a_million_bytes_go_one_by_one(rt: HostRuntime) -> Result<(), Fail> {
    let text = vec![in rt.alloc(); b'a'; 1_000_003]?;
    let mut reader = OneByteReader::new(&text);
    let mut sentence = Sentence {
        text: Vec::new(rt.alloc()),
    };
    let answer = read_pieces(&mut reader, &mut (), &mut sentence);
    expect_eq(&rt, &answer, &Ok(()));
    assert!(rt; sentence.text == text);
    let mut writer = OneByteWriter::new(rt.alloc());
    assert!(rt; send(&mut writer, &text).is_ok());
    assert!(rt; writer.taken == text);
    Ok(())
}

#[test]
fn faults_say_what_failed(rt: HostRuntime) -> Result<(), Fail> {
    let unread: [Unread<usize>; 2] = [Unread::Reader, Unread::Consumer(7)];
    for (fault, words) in unread.iter().zip(["read failed", "7"].iter()) {
        expect_eq(&rt, &format!(in rt.alloc(); "{fault}")?.as_str(), &*words);
    }
    let unsent = Unsent {
        sent: 3,
        error: io::Error::from(io::ErrorKind::WriteZero),
    };
    let words = format!(in rt.alloc(); "{unsent}")?;
    assert!(rt;
        words
            .as_str()
            .starts_with("only the first 3 bytes went out: ")
    );
    Ok(())
}
