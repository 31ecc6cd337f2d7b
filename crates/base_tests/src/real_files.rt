use mp_host::{Host, Port, ReadAllError, RealHost, read_all, write_all};
use std::alloc::Global;
use std::fs;

/// Whether a real file can be made, written and read again, unless memory is wanting.
fn keeps_a_file(alloc: Global, host: &mut RealHost) -> bool {
    if host.create_map("small").is_err() || write_all(host, Port::Map, b"a small file").is_err() {
        return false;
    }
    match read_all(alloc, host, "small", 12) {
        Ok(bytes) => bytes.items() == b"a small file".as_slice(),
        Err(error) => error == ReadAllError::NoMemory,
    }
}

#[test]
fn real_files(rt: HostRuntime) {
    let mut host = RealHost::new(rt);
    assert!(rt; keeps_a_file(rt.alloc(), &mut host));
    assert!(rt; read_all(rt.alloc(), &mut host, "nothing here", 12).is_err());
    assert!(rt; fs::remove_file(&rt, "small").is_ok());
}
