// Fills both tables, loads all back, looks everything up, and prints how many answers were right:
// 64 orders, 256 requests, and each lookup once for each record that it can find.
#![tactic(auto)]

use samples::{client, clordid, downstream, name, order, request};
use std::io;
use store::outcomes::REFUSED;

mod samples; // what is stored

const ORDERS: u16 = 64;

const REQUESTS: u16 = 256;

fn add_orders(book: &mut [u8]) {
    for i in 0..ORDERS {
        store::add_order(book, order(i, 1));
    }
}

fn store_orders(book: &mut [u8]) {
    for i in 0..ORDERS {
        store::store_order(book, usize::from(i), order(i, 2));
    }
}

fn add_requests(book: &mut [u8]) {
    for j in 0..REQUESTS {
        store::add_request(book, request(j, 0));
    }
}

fn store_origins(book: &mut [u8]) {
    for j in 0..REQUESTS {
        store::store_origin(book, usize::from(j), j);
    }
}

fn mark_requests(book: &mut [u8]) {
    for j in 0..REQUESTS {
        store::mark_answered(book, usize::from(j), REFUSED);
    }
}

// How many of the indices below `most` pass a test.
fn count<F: Fn(u16) -> bool>(most: u16, passes: F) -> usize
    requires { F.IsAlwaysCallable passes }
{
    (0..most).filter(|i| passes(*i)).count()
}

// What was loaded right: a call of `count` for each table, whose loads and samples are of its own type.
fn orders_right(book: &[u8], turn: u16) -> usize {
    count(ORDERS, |i| {
        store::load_order(book, usize::from(i)) == order(i, turn)
    })
}

fn requests_right(book: &[u8], outcome: u8) -> usize {
    count(REQUESTS, |j| {
        store::load_request(book, usize::from(j)) == request(j, outcome)
    })
}

fn origins_right(book: &[u8]) -> usize {
    count(REQUESTS, |j| {
        store::load_origin(book, usize::from(j)) == j
    })
}

// Of each record's text, whether a lookup gives its index.
fn found<F: Fn(u16) -> Option<usize>>(most: u16, find: F) -> usize
    requires { F.IsAlwaysCallable find }
{
    count(most, |i| find(i) == Some(usize::from(i)))
}

// Another client's, and the empty one of a gateway cancel.
fn clordids_missed(book: &[u8]) -> usize {
    count(REQUESTS, |j| {
        store::find_clordid(book, client(j / 4) + 8, clordid(j)).is_none()
    })
}

fn stored(rt: &impl Print, book: &mut [u8]) -> io::Result<()> {
    store::clear(book, 10000);
    println!(rt; "setting {}", store::setting(book))?;
    add_orders(book);
    add_requests(book);
    println!(rt; "orders {}", store::order_count(book))?;
    println!(rt; "requests {}", store::request_count(book))?;
    println!(rt; "orders right {}", orders_right(book, 1))?;
    println!(rt; "requests right {}", requests_right(book, 0))
}

fn changed(rt: &impl Print, book: &mut [u8]) -> io::Result<()> {
    store_orders(book);
    store_origins(book);
    mark_requests(book);
    println!(rt; "orders right again {}", orders_right(book, 2))?;
    println!(rt; "requests right again {}", requests_right(book, REFUSED))?;
    println!(rt; "origins right {}", origins_right(book))
}

// A full table takes no more.
fn full(rt: &impl Print, book: &mut [u8]) -> io::Result<()> {
    store::add_order(book, order(ORDERS, 2));
    store::add_request(book, request(REQUESTS, REFUSED));
    println!(rt; "orders when full {}", store::order_count(book))?;
    println!(rt; "requests when full {}", store::request_count(book))
}

fn looked_up(rt: &impl Print, book: &[u8]) -> io::Result<()> {
    let unknown_name = store::find_name(book, name(ORDERS)).is_none();
    let unknown_downstream = store::find_downstream(book, downstream(REQUESTS)).is_none();
    let names = found(ORDERS, |i| store::find_name(book, name(i)));
    let downstreams = found(REQUESTS, |j| store::find_downstream(book, downstream(j)));
    let clordids = found(REQUESTS, |j| {
        store::find_clordid(book, client(j / 4), clordid(j))
    });
    println!(rt; "names {names}")?;
    println!(rt; "downstreams {downstreams}")?;
    println!(rt; "ClOrdIDs {clordids}")?;
    println!(rt; "ClOrdIDs missed {}", clordids_missed(book))?;
    println!(rt; "unknown name {}", u8::from(unknown_name))?;
    println!(rt; "unknown downstream {}", u8::from(unknown_downstream))?;
    println!(rt; "used by client 3 {}", store::count_clordids(book, 3))?;
    println!(rt; "used by client 9 {}", store::count_clordids(book, 9))
}

fn main(rt: HostRuntime) -> io::Result<()> {
    let mut book = [0u8; store::layout::BOOK];
    stored(&rt, &mut book)?;
    changed(&rt, &mut book)?;
    full(&rt, &mut book)?;
    looked_up(&rt, &book)
}
