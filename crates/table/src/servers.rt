// Servers: the ranges of a and b, and how servers are read after their count. (docs/RULES.md, 3.18 and 3.19.)
ghost use Rattle.std.specs.Prelude.{◌≡◌};
ghost use Rattle.table.specs.Servers.{server_in_range, read_server, servers_from, held_servers_as};

use crate::rows::read_value;
use crate::{Server, ServerAt, ServersAt, Table, within_limit};
use kinds::{Refusal, RefusedAt};

impl Server {
    // The a and the b of a server may be at most this. (3.18)
    pub const MAX_B: u64 = 4_096;

    // A server is in range when a is at least 1, and b is at least a and at most its limit. (3.18)
    pub fn in_range(self) -> bool
        ensures { result ≡ server_in_range self }
    {
        within_limit(Server::MAX_B, self.a) & ((self.a <= self.b) & (self.b <= Server::MAX_B))
    }
}

// A server is read as a and b, each tested as it is read. A b below a is refused at the start of b. (3.19)
fn read_server(bytes: &[u8], at: usize) -> Result<ServerAt, RefusedAt>
    ensures { result ≡ read_server bytes.now at }
{
    let a = read_value(bytes, at, Server::MAX_B)?;
    let b = numbers::read(bytes, a.next)?;
    let server = Server {
        a: a.value,
        b: b.value,
    };
    if !server.in_range() {
        return Err(Refusal::ValueOutOfRange.at(a.next));
    }
    Ok(ServerAt {
        server,
        next: b.next,
    })
}

// The server count is read at a place, and then the servers after it. (3.6, 3.7, 3.9)
pub(crate) fn read_servers(bytes: &[u8], at: usize) -> Result<ServersAt, RefusedAt>
    ensures { result ≡ held_servers_as (servers_from bytes.now at) }
{
    let count = numbers::read(bytes, at)?;
    if count.value > Table::MAX_SERVERS as u64 {
        return Err(Refusal::TooManyRows.at(at));
    }
    let mut servers: [Server; Table::MAX_SERVERS] = [Server { a: 0, b: 0 }; Table::MAX_SERVERS];
    let mut next = count.next;
    for i in 0..count.value as usize {
        let read = read_server(bytes, next)?;
        servers[i] = read.server;
        next = read.next;
    }
    Ok(ServersAt {
        servers,
        serving: count.value as usize,
        next,
    })
}
