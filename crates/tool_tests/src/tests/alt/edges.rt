//! Data at the edges of chunks.

use super::*;
use std::test::Fail;

// Adds a `read` in slot 1 of four bytes, of which the first two are the last of the body where it has them.
fn add_read(alloc: Global, script: &mut Bytes, body: usize) -> Result<(), NoMemory> {
    add_number(alloc, script, b"read 1 ", body.saturating_sub(2), b" 4\n")
}

// Adds what a `read` prints where so many bytes of data stand there.
fn add_part(alloc: Global, text: &mut Bytes, body: usize, data: usize) -> Result<(), Fail> {
    let main = body.min(2);
    add_data(
        alloc,
        text,
        b"data ",
        b"\n",
        main,
        data.min(4usize.wrapping_sub(main)),
    )
}

// What puts so many bytes after a body of so many, while a reader has read the last of these.
fn edge_script(alloc: Global, body: usize, data: usize) -> Result<Bytes, Fail> {
    let mut script = bytes(alloc, b"create 0 :x\n")?;
    add_data(alloc, &mut script, b"append 0 ", b"\n", body, 0)?;
    script.extend(b"finish 0\nopen 1 :x\n")?;
    add_read(alloc, &mut script, body)?;
    add_data(alloc, &mut script, b"putalt 0 ", b" t\n", 0, data)?;
    add_read(alloc, &mut script, body)?;
    script.extend(b"getalt :x\nmain :x\nverify\n")?;
    Ok(script)
}

fn alt_text(alloc: Global, data: usize) -> Result<Bytes, Fail> {
    let mut text = Bytes::new(alloc);
    add_data(alloc, &mut text, b"alt ", b" t\n", 0, data)?;
    Ok(text)
}

fn main_text(alloc: Global, body: usize) -> Result<Bytes, Fail> {
    let mut text = Bytes::new(alloc);
    add_data(alloc, &mut text, b"main ", b"\n", body, 0)?;
    Ok(text)
}

fn edge_text(alloc: Global, body: usize, data: usize) -> Result<Bytes, Fail> {
    let mut text = bytes(alloc, b"ok\nok\nok\nok\n")?;
    add_part(alloc, &mut text, body, 0)?;
    text.extend(b"ok\n")?;
    add_part(alloc, &mut text, body, data)?;
    text.extend(alt_text(alloc, data)?.as_slice())?;
    text.extend(main_text(alloc, body)?.as_slice())?;
    text.extend(b"findings 0\n")?;
    Ok(text)
}

// Whether all agree in that run, and in a cache that is opened again.
fn edge_agrees(alloc: Global, body: usize, data: usize) -> Result<bool, Fail> {
    let script = edge_script(alloc, body, data)?;
    let text = edge_text(alloc, body, data)?;
    let alt = alt_text(alloc, data)?;
    let main = main_text(alloc, body)?;
    let rows: [Row<'_>; 4] = [
        ("1000 run", script.as_slice(), Status::Done, text.as_slice()),
        ("1000 getalt :x", b"", Status::Done, alt.as_slice()),
        ("1000 main :x", b"", Status::Done, main.as_slice()),
        VERIFY,
    ];
    Ok(rows_on_empty(alloc, &rows)? == rows.len())
}

// The lengths of a body, and of the data after it.
type Edge = (usize, usize);

const SHORT_EDGES: [Edge; 7] = [(0, 0), (0, 1), (0, 5), (1, 0), (1, 1), (1, 5), (0, 262_145)];

const EDGES_BEFORE: [Edge; 4] = [(262_143, 0), (262_143, 1), (262_143, 5), (262_143, 262_145)];

const EDGES_AT: [Edge; 3] = [(262_144, 0), (262_144, 1), (262_144, 5)];

const EDGES_AFTER: [Edge; 3] = [(262_145, 0), (262_145, 1), (262_145, 5)];

// The first of these at which they do not agree, where there is one.
fn bad_edge(alloc: Global, edges: &[Edge]) -> Result<Option<Edge>, Fail> {
    for index in 0..edges.len() {
        let (body, data) = edges[index];
        if !edge_agrees(alloc, body, data)? {
            return Ok(Some(edges[index]));
        }
    }
    Ok(None)
}

#[test]
fn data_stand_after_a_short_body(rt: HostRuntime) -> Result<(), Fail> {
    let bad = bad_edge(rt.alloc(), &SHORT_EDGES)?;
    assert!(rt; bad == None, "at {bad:?}");
    Ok(())
}

#[test]
fn data_stand_after_a_body_less_than_a_chunk(rt: HostRuntime) -> Result<(), Fail> {
    let bad = bad_edge(rt.alloc(), &EDGES_BEFORE)?;
    assert!(rt; bad == None, "at {bad:?}");
    Ok(())
}

#[test]
fn data_stand_after_a_chunk(rt: HostRuntime) -> Result<(), Fail> {
    let bad = bad_edge(rt.alloc(), &EDGES_AT)?;
    assert!(rt; bad == None, "at {bad:?}");
    Ok(())
}

#[test]
fn data_stand_after_more_than_a_chunk(rt: HostRuntime) -> Result<(), Fail> {
    let bad = bad_edge(rt.alloc(), &EDGES_AFTER)?;
    assert!(rt; bad == None, "at {bad:?}");
    Ok(())
}
