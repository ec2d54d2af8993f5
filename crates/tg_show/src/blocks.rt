ghost use Rattle.std.specs.Prelude.{◌≡◌, ◌++◌, OnOk, codes};
ghost use Rattle.std.specs.Fmt.{decimal};
ghost use Rattle.tg_trace_schedule.specs.glue.Plains.{plain_block, plain_blocks, plain_end};
ghost use Rattle.tg_show.specs.Blocks as blocks;
ghost use Rattle.tg_show.specs.Flat.{mark_text};
ghost use Rattle.tg_show.specs.Layout.{laid};

use crate::flat::{put_comparison, put_statements};
use crate::layouts::put_laid;
use crate::trees::{put_comma, put_end, put_form};
use crate::words::{put, put_count, put_numbered};
use std::alloc::Global;
use tg_base::{Bytes, Memory};
use tg_trace_schedule::{Block, End};

/// Puts the lines of blocks at the end.
pub fn put_blocks_lines(
    alloc: Global,
    text: &mut Vec<u8>,
    names: &[Bytes],
    list: &[Block],
) -> Result<(), Memory>
    ensures { OnOk result (text.new.items
        ≡ text.old.items ++ blocks.blocks_lines names.now 0 (plain_blocks list.now)) }
{
    for place in 0..list.len() {
        put_block(alloc, text, names, place, &list[place])?;
    }
    Ok(())
}

fn put_block(
    alloc: Global,
    text: &mut Vec<u8>,
    names: &[Bytes],
    place: usize,
    block: &Block,
) -> Result<(), Memory>
    ensures { OnOk result (text.new.items
        ≡ text.old.items ++ blocks.block_lines names.now place (plain_block block.now)) }
{
    put_mark_line(alloc, text, place)?;
    put_statements(alloc, text, names, 2, &block.body.items)?;
    put_end_line(alloc, text, names, &block.end)
}

fn put_mark_line(alloc: Global, text: &mut Vec<u8>, place: usize) -> Result<(), Memory>
    ensures { OnOk result (text.new.items
        ≡ text.old.items ++ laid 1 (codes "LABEL " ++ mark_text place)) }
{
    let mut line = Vec::new(alloc);
    put(&mut line, b"LABEL .")?;
    put_count(&mut line, place)?;
    put_laid(text, 1, &line)
}

fn put_end_line(alloc: Global, text: &mut Vec<u8>, names: &[Bytes], end: &End) -> Result<(), Memory>
    ensures { OnOk result (text.new.items
        ≡ text.old.items ++ laid 2 (blocks.end_text names.now (plain_end end.now))) }
{
    let mut line = Vec::new(alloc);
    put_block_end(&mut line, names, end)?;
    put_laid(text, 2, &line)
}

/// Puts where control goes from a block's end at the end, on one line.
fn put_block_end(text: &mut Vec<u8>, names: &[Bytes], end: &End) -> Result<(), Memory>
    ensures { OnOk result (text.new.items
        ≡ text.old.items ++ blocks.end_text names.now (plain_end end.now)) }
{
    match end {
        End::Jump(place) => put_numbered(text, b"JUMP .", *place),
        End::Branch(rel, left, right, yes, no) => {
            put_comparison(text, names, *rel, left, right)?;
            put_comma(text)?;
            put_numbered(text, b".", *yes)?;
            put_comma(text)?;
            put_numbered(text, b".", *no)?;
            put_end(text)
        }
        End::Fault(code) => put_numbered(text, b"FAULT ", *code),
        End::Return(value) => put_form(text, names, b"RETURN", value),
    }
}
