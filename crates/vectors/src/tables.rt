// The numbers of the example's tables: how many of them are lent, setting them, and showing them.
ghost use Rattle.std.specs.Prelude.{◌+◌, ◌^◌, ◌<◌};
ghost use Rattle.pirkvezo.specs.Numbers.{plan_length};

use crate::example::Example;
use crate::fields::{number, rest, small, word, word32};
use crate::printing::{print, print_number};
use pirkvezo::offsets::{
    CLOCK_OFFSET, COMPLETED_OFFSET, DOMAINS_OFFSET, LENGTHS_OFFSET, MASKS_OFFSET, OWNERS_OFFSET,
    PAD_OFFSET, POSITIONS_OFFSET, RECORDS_OFFSET, RIGHTS_OFFSET, RUN_OFFSET, SHARES_OFFSET,
    WINDOWS_OFFSET,
};
use std::io;

#[derive(Clone, Copy)]
enum Table {
    Scripts,
    Cache,
    Boxes,
    Log,
    Frame,
    State,
    Plan,
}

// An area is a table, or a list of numbers in the plan or in the state: the table, and where the
// area begins there.
#[derive(Clone, Copy)]
struct Area {
    table: Table,
    first: usize,
}

// What no other area has as its name is the plan.
fn area_of(name: &[u8]) -> Area
    ensures { result.first < plan_length }
{
    let (table, first) = match name {
        b"scripts" => (Table::Scripts, 0),
        b"cache" => (Table::Cache, 0),
        b"boxes" => (Table::Boxes, 0),
        b"log" => (Table::Log, 0),
        b"frame" => (Table::Frame, 0),
        b"run" => (Table::Plan, RUN_OFFSET),
        b"domains" => (Table::Plan, DOMAINS_OFFSET),
        b"windows" => (Table::Plan, WINDOWS_OFFSET),
        b"shares" => (Table::Plan, SHARES_OFFSET),
        b"rights" => (Table::Plan, RIGHTS_OFFSET),
        b"owners" => (Table::Plan, OWNERS_OFFSET),
        b"lengths" => (Table::Plan, LENGTHS_OFFSET),
        b"masks" => (Table::Plan, MASKS_OFFSET),
        b"completed" => (Table::State, COMPLETED_OFFSET),
        b"clock" => (Table::State, CLOCK_OFFSET),
        b"positions" => (Table::State, POSITIONS_OFFSET),
        b"records" => (Table::State, RECORDS_OFFSET),
        _ => (Table::Plan, PAD_OFFSET),
    };
    Area { table, first }
}

// lend TABLE N: a call is lent N numbers or bytes of that table. A log that is lent has no record
// yet: every byte is 238.
pub(crate) fn lend(example: &mut Example, fields: &[u8]) {
    let length = number(rest(fields)) as usize;
    match area_of(word(fields)).table {
        Table::Scripts => example.scripts_length = length,
        Table::Cache => example.cache_length = length,
        Table::Boxes => example.boxes_length = length,
        Table::Log => {
            example.log.fill(238);
            example.log_length = length;
        }
        Table::Frame => example.frame_length = length,
        Table::State | Table::Plan => {}
    }
}

// Sets a number of a list; past its end nothing. Not the `store` of lexer, which is of bytes alone.
fn put<T: Copy>(list: &mut [T], index: usize, number: T) {
    if index < list.len() {
        list[index] = number;
    }
}

// set AREA INDEX N: a number of a table. What is no other table is the plan.
pub(crate) fn set(example: &mut Example, fields: &[u8]) {
    let area = area_of(word(fields));
    let index = area.first + small(rest(fields));
    let last = rest(rest(fields));
    match area.table {
        Table::Scripts => put(&mut example.scripts, index, word32(last)),
        Table::Cache => put(&mut example.cache, index, (number(last) % 65_536) as u16),
        Table::Boxes => put(&mut example.boxes, index, word32(last)),
        Table::State => put(&mut example.state, index, number(last)),
        _ => put(&mut example.plan, index, word32(last)),
    }
}

// A number of a list; 0 past its end.
fn entry<T: Copy>(list: &[T], index: usize) -> u64
where
    u64: From<T>,
{
    match list.get(index) {
        Some(number) => u64::from(*number),
        None => 0,
    }
}

// A number of a table; 0 past its end.
fn number_at(example: &Example, table: Table, index: usize) -> u64 {
    match table {
        Table::Scripts => entry(&example.scripts, index),
        Table::Cache => entry(&example.cache, index),
        Table::Boxes => entry(&example.boxes, index),
        Table::Log => entry(&example.log, index),
        Table::Frame => entry(&example.frame, index),
        Table::State => entry(&example.state, index),
        Table::Plan => entry(&example.plan, index),
    }
}

// show LABEL AREA FIRST COUNT: numbers of a table, or bytes of the log.
pub(crate) fn show(rt: &impl Print, example: &Example, fields: &[u8]) -> io::Result<()> {
    let named = rest(fields);
    let area = area_of(word(named));
    let first = area.first + small(rest(named));
    let count = small(rest(rest(named)));
    print(rt, word(fields))?;
    for index in first..first + count {
        print_number(rt, number_at(example, area.table, index))?;
    }
    print(rt, b"\n")
}

// window LABEL N: the owner and the length of window N.
pub(crate) fn show_window(rt: &impl Print, example: &Example, fields: &[u8]) -> io::Result<()> {
    let window = small(rest(fields));
    print(rt, word(fields))?;
    print_number(rt, entry(&example.plan, OWNERS_OFFSET + window))?;
    print_number(rt, entry(&example.plan, LENGTHS_OFFSET + window))?;
    print(rt, b"\n")
}
