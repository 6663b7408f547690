//! The tests of cv_resolver, as a table: each line of standard input is an act or a question, and prints one line.
//!
//! ```text
//! tree ROOM TREE              serves the catalogues of a tree and the contents of its files, and prints how many objects they are
//! served ROOM ROOT OBJECTS    serves these objects, and prints how many they are
//! L PATH, S PATH or R PATH    asks for a list, an entry or a content, and prints what is found
//! N L PATH and so on          asks, and prints how many objects are wanted for it
//! renew NAME REVISION ROOT    hands in a manifest with this root, and prints whether it is taken
//! # REMARK                    prints itself
//! ```
//!
//! Where something is served, there is a new client of the repository `r`, at that root and revision 5, with room for so many
//! catalogues. A tree is paths with a space between each two: `/d/` is a directory, `/l=t` a link to `t`, and anything else a
//! file whose content is the text of its path. An object is its id, an equals sign, and the digits of its bytes.
#![tactic(auto)]

mod client;
mod served;
mod told;

use client::Client;
use served::Served;
use std::alloc::Global;
use std::test::Fail;

/// The first word of a text, and what stands behind it.
fn first_word(text: &str) -> (&str, &str) {
    text.split_once(' ').unwrap_or((text, ""))
}

/// Begins anew with what is served.
fn begin(
    alloc: Global,
    client: &mut Option<Client>,
    room: &str,
    served: Served,
) -> Result<String, Fail> {
    let count = served.objects.len();
    *client = Some(Client::new(alloc, served, room)?);
    Ok(format!(in alloc; "{count} objects")?)
}

/// What a line prints.
fn answer(alloc: Global, client: &mut Option<Client>, line: &str) -> Result<String, Fail> {
    let (word, rest) = first_word(line);
    match word {
        "#" => Ok(String::from_str(alloc, line)?),
        "tree" => {
            let (room, tree) = first_word(rest);
            begin(alloc, client, room, Served::of_tree(alloc, tree)?)
        }
        "served" => {
            let (room, words) = first_word(rest);
            begin(alloc, client, room, Served::of_words(alloc, words)?)
        }
        _ => match client {
            Some(client) => client.answer(alloc, line),
            None => Err(Fail::new("nothing is served")),
        },
    }
}

fn main(rt: HostRuntime) -> Result<(), Fail> {
    let alloc = rt.alloc();
    let mut client = None;
    for line in rt.lines(alloc) {
        let text = answer(alloc, &mut client, line?.as_str())?;
        rt.println(text)?;
    }
    Ok(())
}
