// The desk tool proxy: up to 16 join proxies, made and called by lines of standard input (docs/TOOLS.md).
#![tactic(auto)]

mod verb;

use join_proxy::{JudgeResult, Proxy};
use std::io;
use tool_notation::put_refusal;
use tool_text::first;
use tool_text::input::Input;
use tool_text::line_error::LineError;
use tool_text::output::{ByteString, Output};
use tool_text::session::Session;
use tool_words::line::{Tool, run};
use tool_words::words::Words;
use verb::Verb;

// What is kept from line to line: the proxies that were made, by number, the destination, and how much of it is lent.
#[derive(Drop)]
struct Proxies {
    made: [Option<Proxy>; 16],
    room: usize,
    destination: [u8; 64],
}

impl Tool for Proxies {
    const HEX_AT: usize = 2;

    fn answer(&mut self, words: &Words, out: &mut Output) -> Result<(), LineError> {
        let verb = Verb::try_from(words.command)?;
        verb.shape().judge(words)?;
        let [number, second, _, _] = &words.arguments;
        match verb {
            Verb::Room => {
                self.room = number.value() as usize;
                write!(out, "lent {}", self.room);
            }
            Verb::Destination => {
                write!(out, "{}", ByteString(first(&self.destination, self.room)));
            }
            Verb::Make => {
                self.make(number.value(), second.array())?;
                write!(out, "made");
            }
            _ => {
                let proxy = self.proxy(number.value())?;
                let proxy = self.call(proxy, verb, words, out);
                self.store(number.value(), proxy);
            }
        }
        Ok(())
    }
}

impl Proxies {
    // The proxy with this number.
    fn proxy(&self, number: u64) -> Result<Proxy, LineError> {
        let made = self.made.get(number as usize).copied().flatten();
        made.ok_or(LineError::Node)
    }

    // Makes the proxy with this number, or makes it anew.
    fn make(&mut self, number: u64, key: [u8; 16]) -> Result<(), LineError> {
        let place = self.made.get_mut(number as usize).ok_or(LineError::Node)?;
        *place = Some(Proxy::new(key));
        Ok(())
    }

    fn store(&mut self, number: u64, proxy: Proxy) {
        if let Some(place) = self.made.get_mut(number as usize) {
            *place = Some(proxy);
        }
    }

    // The proxy after a command on it, its answer written.
    fn call(&mut self, proxy: Proxy, verb: Verb, words: &Words, out: &mut Output) -> Proxy {
        let second = &words.arguments[1];
        match verb {
            Verb::Key => put_keyed(out, proxy, second.array()),
            Verb::Issue => self.issue(proxy, words, out),
            Verb::Issued => {
                write!(out, "set");
                Proxy {
                    next: u32::try_from(second.value()).ok(),
                    ..proxy
                }
            }
            Verb::Judge => {
                put_judgement(out, proxy.judge(words.payload()));
                proxy
            }
            _ => {
                put_proxy(out, proxy);
                proxy
            }
        }
    }

    // The proxy after it issued a body to the destination.
    fn issue(&mut self, proxy: Proxy, words: &Words, out: &mut Output) -> Proxy {
        let [_, interface, port, token] = &words.arguments;
        let room = self.room.min(self.destination.len());
        let dst = &mut self.destination[..room];
        let port = (port.value() % 65536) as u16;
        let issue = proxy.issue(interface.array(), port, token.bytes(), dst);
        match issue.written {
            Ok(len) => write!(out, "body {}", ByteString(first(dst, len))),
            Err(refusal) => put_refusal(out, refusal),
        }
        issue.proxy
    }
}

// The proxy after its key was set, or not.
fn put_keyed(out: &mut Output, proxy: Proxy, key: [u8; 16]) -> Proxy {
    let keyed = proxy.set_key(key);
    match keyed.verdict {
        Ok(()) => write!(out, "set"),
        Err(refusal) => put_refusal(out, refusal),
    }
    keyed.proxy
}

// To whom a response is forwarded, as forward h'0211223344556677' 5683 h'cafe'.
fn put_judgement(out: &mut Output, judgement: JudgeResult) {
    let pledge = judgement.pledge;
    match judgement.verdict {
        Ok(()) => write!(
            out,
            "forward {} {} {}",
            ByteString(&pledge.interface),
            pledge.port,
            ByteString(first(&pledge.token, pledge.len as usize))
        ),
        Err(refusal) => put_refusal(out, refusal),
    }
}

// A proxy, as key=h'000102030405060708090a0b0c0d0e0f' issued=2.
fn put_proxy(out: &mut Output, proxy: Proxy) {
    let issued = proxy.next.map_or(4294967296, u64::from);
    write!(out, "key={} issued={issued}", ByteString(&proxy.key));
}

fn main(rt: HostRuntime) -> io::Result<()> {
    let mut input = Input::new(rt.stdin());
    let mut out = Output::new(rt.stdout());
    let session = Session::begin(
        &rt,
        &mut input,
        &mut out,
        "proxy: up to 16 join proxies, what they issue and what they forward (docs/TOOLS.md).\n\
proxy I KEY, key I KEY, issue I INTERFACE PORT TOKEN, judge I HEX, show I, issued I N, room N, destination\n",
    );
    let mut proxies = Proxies {
        made: [None; 16],
        room: 31,
        destination: [0; 64],
    };
    run(session, &mut proxies)
}
