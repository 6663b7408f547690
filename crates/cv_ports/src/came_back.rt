//! What a dial in memory keeps of its links.
ghost use Rattle.std.specs.Prelude.{◌≡◌, ◌++◌, OnOk};
ghost use Rattle.cv_ports.specs.CameBack.{links_of};

use crate::host_name::HostName;
use crate::link::Link;
use crate::memory_sink::MemorySink;
use crate::memory_source::MemorySource;
use cv_base::NoMemory;

/// The links that were opened, each by its host and port, and those that came back, the last on the outside.
#[derive(Drop)]
pub enum CameBack {
    Nothing,
    Opened(HostName, u16, Box<CameBack>),
    Back(Link<MemorySource, MemorySink>, Box<CameBack>),
}

/// Puts the links that came back behind others, in their order.
pub fn put_links(
    came: CameBack,
    links: &mut Vec<Link<MemorySource, MemorySink>>,
) -> Result<(), NoMemory>
    ensures { OnOk result (links.new.items ≡ links.old.items ++ links_of came) }
{
    match came {
        CameBack::Nothing => Ok(()),
        CameBack::Opened(_, _, before) => put_links(Box::into_inner(before), links),
        CameBack::Back(link, before) => {
            put_links(Box::into_inner(before), links)?;
            links.push(link)?;
            Ok(())
        }
    }
}
