//! Hosts and their ports.

use crate::strip_port;

const HOSTS: [(&str, &str); 18] = [
    ("a.example", "a.example"),
    ("a.example:80", "a.example"),
    ("a:", "a"),
    (":80", ""),
    ("", ""),
    ("a:b:80", "a:b:80"),
    ("::1", "::1"),
    ("[::1]:80", "::1"),
    ("[::1]:", "::1"),
    ("[]:80", ""),
    ("[::1]", "[::1]"),
    ("[a]:b:80", "[a]:b:80"),
    ("[[::1]:80", "[[::1]:80"),
    ("[::1]]:80", "[::1]]:80"),
    ("[::1]x:80", "[::1]x:80"),
    ("x[::1]:80", "x[::1]:80"),
    ("a]:80", "a]:80"),
    ("[a:80", "[a:80"),
];

#[test]
fn hosts_without_their_ports(rt: HostRuntime) {
    for (host, stripped) in HOSTS {
        assert_eq!(rt; strip_port(host.as_bytes()), stripped.as_bytes(), "{host}");
    }
}
