// The signals of a content under each token.
use crate::checks::{holds, is_named, same, same_bytes};
use arc_data::Token;
use content_signals::{has_signals, signals};
use std::process::Abort;

#[test]
fn reads_contents(rt: HostRuntime) {
    reads(&rt, Token::AdmCid, "1131 01 001", 1, "burglary new", "131");
    reads(
        &rt,
        Token::AdmCid,
        "3401 0a 00F][V1",
        1,
        "openclose closing",
        "401",
    );
    reads(
        &rt,
        Token::SiaDcs,
        "Nri1/FA129/BR2][S123Main St.",
        2,
        "fire new",
        "FA",
    );
    reads_none(&rt, Token::AdmCid, "Nri1/FA129");
    reads_none(&rt, Token::SiaDcs, "1131 01 001");
}

// The content is outside the grammar of its token.
fn reads_none(rt: &impl Abort, token: Token, content: &str) {
    holds(rt, signals(token, content.as_bytes()).is_none(), content);
    holds(rt, !has_signals(token, content.as_bytes()), content);
}

// The content has so many signals, the first with this class and kind and with this code.
fn reads(rt: &impl Abort, token: Token, content: &str, count: u64, words: &str, code: &str) {
    holds(rt, has_signals(token, content.as_bytes()), content);
    let signals = signals(token, content.as_bytes()).expect(rt, "signals");
    same(rt, signals.count() as u64, count, content);
    assert!(rt; signals.count() > 0);
    let first = signals.at(0);
    holds(rt, is_named(words, first.class, first.kind), content);
    same_bytes(rt, first.code.bytes(), code.as_bytes(), content);
}
