// Draws, words in bytes, words modulo p and elements, on some hundred inputs. tests/ground.py computes the same lines
// by other means.
#![tactic(auto)]

mod print;

use draw::Generator;
use print::{bytes, element, end, number, word};
use std::io;

// Five words as drawn, so also at and above p.
fn draw_element(g: &mut Generator) -> [u32; 5] {
    [
        g.next_number(),
        g.next_number(),
        g.next_number(),
        g.next_number(),
        g.next_number(),
    ]
}

// 0, 1, p - 1, p, p + 1, 2p, 2p + 1, 2^32 - 1
const EDGES: [u32; 8] = [
    0, 1, 2130706432, 2130706433, 2130706434, 4261412866, 4261412867, 4294967295,
];

fn edge(i: u32) -> u32 {
    EDGES[(i % 8) as usize]
}

// Five edges, from one on and by steps of three.
fn edge_element(i: u32) -> [u32; 5] {
    let k = i % 8;
    [edge(k), edge(k + 3), edge(k + 6), edge(k + 9), edge(k + 12)]
}

fn draws(rt: &impl Print, seed: u64) -> io::Result<()> {
    rt.write_all(b"draw")?;
    number(rt, seed)?;
    let mut g = Generator::new(seed);
    for _ in 0..8u32 {
        word(rt, g.next_number())?;
    }
    end(rt)
}

fn words(rt: &impl Print, x: u32, y: u32) -> io::Result<()> {
    rt.write_all(b"word")?;
    word(rt, x)?;
    word(rt, y)?;
    word(rt, word::add(x, y))?;
    word(rt, word::sub(x, y))?;
    word(rt, word::mul(x, y))?;
    end(rt)
}

fn edge_words(rt: &impl Print) -> io::Result<()> {
    for k in 0..64 {
        words(rt, edge(k / 8), edge(k))?;
    }
    Ok(())
}

fn drawn_words(rt: &impl Print, seed: u64) -> io::Result<()> {
    let mut g = Generator::new(seed);
    for _ in 0..40u32 {
        let x = g.next_number();
        let y = g.next_number();
        words(rt, x, y)?;
    }
    Ok(())
}

fn elements(rt: &impl Print, a: [u32; 5], b: [u32; 5]) -> io::Result<()> {
    element(rt, b"a", a)?;
    element(rt, b"b", b)?;
    element(rt, b"sum", element::sum(a, b))?;
    element(rt, b"difference", element::difference(a, b))?;
    element(rt, b"product", element::product(a, b))?;
    element(rt, b"peq", element::peq(a, b))
}

fn edge_elements(rt: &impl Print) -> io::Result<()> {
    for k in 0..8 {
        elements(rt, edge_element(k), edge_element(k * 3 + 1))?;
    }
    Ok(())
}

fn drawn_elements(rt: &impl Print, seed: u64) -> io::Result<()> {
    let mut g = Generator::new(seed);
    for k in 0..10 {
        let a = draw_element(&mut g);
        let b = draw_element(&mut g);
        elements(rt, a, b)?;
        elements(rt, b, edge_element(k))?;
    }
    Ok(())
}

// A word read at a byte of eleven, and one written there.
fn bytes_at(rt: &impl Print, at: usize) -> io::Result<()> {
    let mut s: [u8; 11] = [1, 255, 2, 254, 128, 127, 0, 77, 200, 31, 250];
    rt.write_all(b"bytes")?;
    number(rt, at as u64)?;
    word(rt, word::word_at(&s, at))?;
    word::put_word(&mut s, at, 3735928559);
    bytes(rt, &s)?;
    end(rt)
}

fn all_bytes(rt: &impl Print) -> io::Result<()> {
    for at in 0..16 {
        bytes_at(rt, at)?;
    }
    bytes_at(rt, 18446744073709551615)
}

fn main(rt: HostRuntime) -> io::Result<()> {
    draws(&rt, 0)?;
    draws(&rt, 1)?;
    draws(&rt, 4294967296)?;
    draws(&rt, 0x000000012fffffff)?;
    draws(&rt, 0xffffffff2fffffff)?;
    draws(&rt, 0xffffffffffffffff)?;
    edge_words(&rt)?;
    drawn_words(&rt, 0x000000012fffffff)?;
    edge_elements(&rt)?;
    drawn_elements(&rt, 0xffffffff2fffffff)?;
    all_bytes(&rt)
}
