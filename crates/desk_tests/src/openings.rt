//! The desks that the tests use.

ghost use Rattle.std.specs.Prelude.{◌≡◌, ◌<◌, ◌≤◌, IfOk, length};
ghost use Rattle.std.specs.List.{All};
ghost use Rattle.check_desk.specs.Desks.{AreNewPassesWith, IsPassOf};

use check_book::Book;
use check_desk::{Desk, Pass};
use check_objects::Setup;
use std::alloc::Global;
use std::process::Abort;
use std::test::Fail;

/// A host that is never due, and its service 1, due at 0, with 3 attempts, 5 minutes and 1 minute.
pub(crate) const ONE_SERVICE: &[u8] =
    br#"{"options":{"service_inter_check_delay_method":"n","host_inter_check_delay_method":"n"},"hosts":[{"name":"h","check_interval":0,"max_check_attempts":3}],"services":[{"host":"h","description":"s","max_check_attempts":3}]}"#;

/// The same with two such services, 1 and 2.
pub(crate) const TWO_SERVICES: &[u8] =
    br#"{"options":{"service_inter_check_delay_method":"n","host_inter_check_delay_method":"n"},"hosts":[{"name":"h","check_interval":0,"max_check_attempts":3}],"services":[{"host":"h","description":"a","max_check_attempts":3},{"host":"h","description":"b","max_check_attempts":3}]}"#;

/// As many calls as a pass can have.
pub(crate) const MOST_CALLS: u32 = 4_294_967_295;

/// A desk on the setup of this text, and its passes with this many calls each.
pub(crate) fn open_desk(
    alloc: Global,
    text: &[u8],
    passes: u32,
    calls: u32,
) -> Result<(Desk, Vec<Pass>), Fail>
    requires { (0 < passes) × (passes ≤ 1024) × (0 < calls) }
    ensures passes { IfOk result (λ made. length made.1.items ≡ passes) }
    ensures new { IfOk result (λ made. AreNewPassesWith calls made.0 0 made.1.items) }
    ensures own { IfOk result (λ made. All (IsPassOf made.0) made.1.items) }
{
    let setup = Setup::read(alloc, text)?;
    let book = Book::open(alloc, setup, 0, 400)
        .ok()
        .ok_or("no memory for the book")?;
    Ok(
        Desk::open_with(alloc, book, passes, calls)
            .ok()
            .ok_or("no memory for the desk")?,
    )
}

/// A desk on the setup of this text, with one pass.
pub(crate) fn one_pass(alloc: Global, text: &[u8]) -> Result<(Desk, Pass), Fail>
    ensures { IfOk result (λ made. IsPassOf made.0 made.1) }
{
    let (desk, mut passes) = open_desk(alloc, text, 1, MOST_CALLS)?;
    let pass = passes.pop().ok_or("no pass")?;
    Ok((desk, pass))
}

/// A desk on the setup of this text, with two passes, by number.
pub(crate) fn two_passes(alloc: Global, text: &[u8]) -> Result<(Desk, Pass, Pass), Fail>
    ensures { IfOk result (λ made. IsPassOf made.0 made.1 × IsPassOf made.0 made.2) }
{
    let (desk, mut passes) = open_desk(alloc, text, 2, MOST_CALLS)?;
    let second = passes.pop();
    let first = passes.pop();
    let (Some(first), Some(second)) = (first, second) else {
        return Err(Fail::from("not two passes"));
    };
    Ok((desk, first, second))
}

/// The book of a desk whose passes are gathered.
pub(crate) fn close_desk(rt: &impl Abort, desk: Desk, pass: Pass) -> Book
    requires { IsPassOf desk pass }
{
    match desk.close(pass) {
        Ok(book) => book,
        Err((_desk, _pass)) => panic!(rt; "passes are missing"),
    }
}
