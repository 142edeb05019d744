//! A core over the largest book. No clause states this, and no test over the C library shows it
//! (`c/tests/books.c`).

use check_book::Book;
use check_book::laws::board_shows_standings;
use check_objects::Setup;
use std::alloc::{AllocError, Global};
use std::test::Fail;
use ticket_steps::Core;

/// A document of 4,096 hosts.
fn largest_document(alloc: Global) -> Result<String, AllocError> {
    let mut document = String::new(alloc);
    document.push_str("{\"hosts\":[{\"name\":\"h\",\"max_check_attempts\":3}")?;
    for host in 1..4096u32 {
        write!(
            document,
            ",{{\"name\":\"h{host}\",\"max_check_attempts\":3}}"
        )?;
    }
    document.push_str("]}")?;
    Ok(document)
}

/// With enough memory a core can be made over a book of as many objects as there can be.
#[test]
fn a_core_opens_over_the_largest_book(rt: HostRuntime) -> Result<(), Fail> {
    // for the proof: a book's board has few words
    board_shows_standings();
    let document = largest_document(rt.alloc())?;
    let setup = Setup::read(rt.alloc(), document.as_bytes())?;
    let book = Book::open(rt.alloc(), setup, 0, 0)
        .ok()
        .ok_or("no memory for the book")?;
    assert!(rt; Core::open(rt.alloc(), book, 2).is_ok());
    Ok(())
}
