use smx_config::read;
use smx_demo::Demo;
use smx_serve::Server;
use std::alloc::Global;
use std::io;
use std::net::TcpListener;
use std::test::*;

// An address that nobody has now.
fn free_address(rt: &HostRuntime) -> io::Result<String> {
    let listener = TcpListener::bind(rt, "127.0.0.1:0")?;
    Ok(format!(in rt.alloc(); "{}", listener.local_addr()?)?)
}

// Two upstreams at one centre and two accounts.
fn text_of(alloc: Global, listen: &str, centre: &str) -> Result<String, std::alloc::AllocError> {
    format!(in alloc;
        "listen = \"{listen}\"
clients = 2

[[upstream]]
address = \"{centre}\"
system_id = \"proxy\"
password = \"pw\"

[[upstream]]
address = \"{centre}\"
system_id = \"proxy\"
password = \"pw\"

[[account]]
system_id = \"alpha\"
password = \"a1\"
prefixes = [\"49\"]

[[account]]
system_id = \"beta\"
password = \"b2\"
"
    )
}

// Every client has its ten messages answered, each under its own number.
#[test]
fn each_account_is_answered(rt: HostRuntime) -> Result<(), Fail> {
    let listen = free_address(&rt)?;
    let centre = free_address(&rt)?;
    let text = text_of(rt.alloc(), listen.as_str(), centre.as_str())?;
    let config = read(rt.alloc(), text.as_str())?;
    let demo = Demo::new(&rt, rt.alloc(), config)?;
    let server = Server::new(&rt, rt.alloc()).expect(&rt, "no server");
    let counts = demo.run(&rt, server)?;
    let wanted = [10u32, 10];
    assert_eq!(rt; counts.as_slice(), wanted.as_slice());
    Ok(())
}
