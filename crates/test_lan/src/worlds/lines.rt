//! Each form of a line, as it is read and printed. (What is no line ends a script of `app_cases`.)

use sim_link::{Line, Side};
use std::alloc::{AllocError, Global};
use std::test::Fail;

/// The first of these lines that isn't printed as it was read, or as it says after ` > `.
fn first_other(alloc: Global, forms: &'static str) -> Option<&'static str> {
    for form in forms.lines() {
        let (text, printed) = form.split_once(" > ").unwrap_or((form, form));
        if !is_printed(alloc, text, printed) {
            return Some(form);
        }
    }
    None
}

fn is_printed(alloc: Global, text: &str, printed: &str) -> bool {
    match Line::read(text.as_bytes()) {
        Some(line) => is_text(line.to_text(alloc), printed),
        None => false,
    }
}

fn is_text(text: Result<String, AllocError>, wanted: &str) -> bool {
    match text {
        Ok(text) => text.as_str() == wanted,
        Err(AllocError) => false,
    }
}

/// Each form of a line, and then texts of which there are several for one line.
const FORMS: &str = "\
world eth 1514
world ip 1500
socket A udp 1 64 2 128
socket B icmp 1 64 2 128
socket A raw 4 17 1 64 2 128
socket A raw 6 any 1 64 2 128
socket A raw any 58 1 64 2 128
socket B tcp 64 128
start
listen B 0 80
connect A 0 192.168.1.2:80 49500
connect A 0 [fd00::2]:80 49500
send A 0 616263
recv B 0 8
close A 0
abort A 0
state A 9
bind A 0 48896
ident A 1 4660
sendto A 0 192.168.1.2:53 aa0000ff
sendicmp A 1 fd00::2 8000
sendraw A 2 -
recvfrom B 0 64
addrs A
addrs A 192.168.1.1/24 fd00::1/64 10.0.0.1/8 10.0.0.2/8
hw A 02-00-00-00-00-09
route A 192.168.1.254
poll A 2305843009213693953 65535
pollat A 9223372036854775807
deliver A 0 5a5a
damage A 0 20 6163 -
noise A 3333ff
room A 18446744073709551615
cut A 0 8
poll A 007 0000008 > poll A 7 8
send A 0 6A6b > send A 0 6a6b
damage A 0 20 FFfe - > damage A 0 20 fffe -
hw B 2:0:0:0:0:a > hw B 02-00-00-00-00-0a
route A fd00:0:0:0:0:0:0:1 > route A fd00::1
";

#[test]
fn lines_are_printed_as_they_are_read(rt: HostRuntime) -> Result<(), Fail> {
    if let Some(form) = first_other(rt.alloc(), FORMS) {
        return Err(Fail::new(format_args!("{form}")));
    }
    let line = Line::read(b"damage A 3 20 6163 5A00");
    assert!(rt; matches!(line, Some(Line::Damage(Side::A, 3, 20, 0x6163, _))));
    Ok(())
}
