//! The tests of cv_http, as a table: each line of standard input is reads of a source, or writes to a sink, and prints what comes
//! of them.
//!
//! ```text
//! read|PIECE|CALL|INPUT|ACT|ACT and so on    from a source of this input, which gives so many bytes a call
//! write|ROOM|CALL|ACT|ACT and so on          to a sink with room for so many bytes
//! ```
//!
//! The call of this number fails, and none where it's 0. `cv_lines` says how bytes stand in a line, `reads` and `writes` say
//! which acts there are. What they answer is printed with a bar behind each. Behind the last stands how many bytes the source
//! has left, or what the sink took, and how many bytes of it were passed on.
#![tactic(auto)]

mod reads;
mod writes;

use std::alloc::Global;
use std::test::Fail;

/// What a line prints.
fn answer(alloc: Global, line: &str) -> Result<String, Fail> {
    match line.split_once('|') {
        Some(("read", row)) => reads::answer(alloc, row),
        Some(("write", row)) => writes::answer(alloc, row),
        _ => Err(Fail::new("no row")),
    }
}

fn main(rt: HostRuntime) -> Result<(), Fail> {
    let alloc = rt.alloc();
    for line in rt.lines(alloc) {
        let text = answer(alloc, line?.as_str())?;
        rt.println(text)?;
    }
    Ok(())
}
