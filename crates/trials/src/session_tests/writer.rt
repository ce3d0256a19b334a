// A writer of images. It has the formats of docs/FORMATS.md, and that of records from the head of
// crates/record_view, as they are written there, and uses nothing of the program.

use std::alloc::{AllocError, Global};

/// The octets of a block and of a page.
pub(super) const BLOCK: usize = 65_536;

pub(super) const PAGE: usize = 256;

/// The five octets of a pattern.
pub(super) type Pattern = [u8; 5];

/// A block of a store, and the number of its first record there.
#[derive(Clone, Copy)]
pub(super) struct Link {
    pub(super) block: u16,
    pub(super) number: u32,
}

/// A store as the journal has it.
#[derive(Clone, Copy)]
pub(super) struct StoreRow {
    pub(super) identifier: u16,
    /// 0 circular, 1 bounded
    pub(super) kind: u8,
    pub(super) size: u32,
    pub(super) channel: u8,
    /// 1 storage, 2 open retrieval, 4 told, 8 a range; added
    pub(super) flags: u8,
    /// the number of the first record
    pub(super) number: u32,
    pub(super) count: u32,
    pub(super) passed: u32,
    pub(super) range: [u32; 2],
    pub(super) patterns: &'static [Pattern],
    pub(super) links: &'static [Link],
}

/// Records one after another: how many, of packets of so many octets, from a page of a block on. The
/// first one has this number and this time, and both rise by one from each to the next.
#[derive(Clone, Copy)]
pub(super) struct Run {
    pub(super) block: u16,
    pub(super) page: usize,
    pub(super) number: u32,
    pub(super) count: u32,
    pub(super) length: u16,
    pub(super) time: u64,
}

/// What an image is made of.
#[derive(Clone, Copy)]
pub(super) struct Plan {
    pub(super) blocks: u16,
    pub(super) generations: [u64; 3],
    /// whether each half has the checkpoint and the entries
    pub(super) halves: [bool; 2],
    pub(super) time: u64,
    pub(super) reports: u16,
    pub(super) forward: &'static [Pattern],
    /// the octets of each entry's changes
    pub(super) entries: &'static [&'static [u8]],
}

// Writes octets from a place on, as far as the image goes.
pub(super) fn put(image: &mut [u8], at: usize, octets: &[u8]) {
    if at <= image.len() {
        for (place, octet) in image[at..].iter_mut().zip(octets) {
            *place = *octet;
        }
    }
}

// The text of a time, 6 octets.
fn push_time(text: &mut Vec<u8>, time: u64) -> Result<(), AllocError> {
    let octets = time.to_be_bytes();
    text.extend_from_slice(&octets[2..])
}

// A number of patterns, and these.
fn push_patterns(text: &mut Vec<u8>, patterns: &[Pattern]) -> Result<(), AllocError> {
    text.push((patterns.len() % 256) as u8)?;
    for pattern in patterns {
        text.extend_from_slice(pattern)?;
    }
    Ok(())
}

// The 29 octets of a row.
pub(super) fn push_row(text: &mut Vec<u8>, row: &StoreRow) -> Result<(), AllocError> {
    text.extend_from_slice(&row.identifier.to_be_bytes())?;
    text.push(row.kind)?;
    text.extend_from_slice(&row.size.to_be_bytes())?;
    text.push(row.channel)?;
    text.push(row.flags)?;
    let numbers = [
        row.number,
        row.count,
        row.passed,
        row.range[0],
        row.range[1],
    ];
    for number in numbers {
        text.extend_from_slice(&number.to_be_bytes())?;
    }
    Ok(())
}

// A store: its row, its patterns and its links.
fn push_store(text: &mut Vec<u8>, row: &StoreRow) -> Result<(), AllocError> {
    push_row(text, row)?;
    push_patterns(text, row.patterns)?;
    text.extend_from_slice(&((row.links.len() % 65_536) as u16).to_be_bytes())?;
    for link in row.links {
        text.extend_from_slice(&link.block.to_be_bytes())?;
        text.extend_from_slice(&link.number.to_be_bytes())?;
    }
    Ok(())
}

// The text of a checkpoint. The erase counts are 0.
fn checkpoint(alloc: Global, plan: &Plan, rows: &[StoreRow]) -> Result<Vec<u8>, AllocError> {
    let mut text = Vec::new(alloc);
    push_time(&mut text, plan.time)?;
    text.extend_from_slice(&plan.reports.to_be_bytes())?;
    push_patterns(&mut text, plan.forward)?;
    text.push((rows.len() % 256) as u8)?;
    for row in rows {
        push_store(&mut text, row)?;
    }
    for _ in 0..plan.blocks {
        text.extend_from_slice(&[0; 4])?;
    }
    Ok(text)
}

// Writes a text with its length in front and zeros behind it, and returns the page after it.
fn put_text(image: &mut [u8], page: usize, text: &[u8]) -> usize {
    let pages = text.len().saturating_add(4).div_ceil(PAGE);
    for behind in 0..pages {
        put(
            image,
            page.saturating_add(behind).saturating_mul(PAGE),
            &[0; PAGE],
        );
    }
    let at = page.saturating_mul(PAGE);
    put(image, at, &((text.len() % 65_536) as u32).to_be_bytes());
    put(image, at.saturating_add(4), text);
    page.saturating_add(pages)
}

// Writes a checkpoint at the front of a half that begins at this page, and the entries behind it.
fn put_half(image: &mut [u8], first: usize, checkpoint: &[u8], entries: &[&[u8]]) {
    let mut page = put_text(image, first, checkpoint);
    for entry in entries {
        put(image, page.saturating_mul(PAGE), &[0x5a; PAGE]);
        page = put_text(image, page.saturating_add(1), entry);
    }
}

// Writes a root page at the front of a block.
fn put_root(image: &mut [u8], block: usize, blocks: u16, generation: u64) {
    let at = block.saturating_mul(BLOCK);
    put(image, at, &[0; PAGE]);
    put(image, at, b"PUSSTORE\x01");
    put(
        image,
        at.saturating_add(9),
        &u32::from(blocks).to_be_bytes(),
    );
    put(image, at.saturating_add(13), &generation.to_be_bytes());
}

/// The packet of a number: telemetry of APID 100, a report of service 3 and subtype 25 if it has room
/// for the header, and then the last octet of the number throughout.
pub(super) fn packet_of(alloc: Global, number: u32, length: u16) -> Result<Vec<u8>, AllocError> {
    let [_, _, high, low] = number.to_be_bytes();
    let [long, short] = length.saturating_sub(7).to_be_bytes();
    let mut packet = Vec::new(alloc);
    packet.extend_from_slice(&[0x08, 0x64, 0xc0 | high & 0x3f, low, long, short])?;
    packet.extend_from_slice(&[0x20, 3, 25])?;
    for _ in 9..length {
        packet.push(low)?;
    }
    packet.truncate(usize::from(length));
    Ok(packet)
}

// Writes a record at a page of the image: its time, number and length, four zeros, and its packet,
// with zeros to the end of its last page.
fn put_record(
    alloc: Global,
    image: &mut [u8],
    page: usize,
    time: u64,
    number: u32,
    length: u16,
) -> Result<usize, AllocError> {
    let mut octets = Vec::new(alloc);
    push_time(&mut octets, time)?;
    octets.extend_from_slice(&number.to_be_bytes())?;
    octets.extend_from_slice(&length.to_be_bytes())?;
    octets.extend_from_slice(&[0; 4])?;
    octets.extend_from_slice(&packet_of(alloc, number, length)?)?;
    let pages = octets.len().div_ceil(PAGE);
    for _ in octets.len()..pages.saturating_mul(PAGE) {
        octets.push(0)?;
    }
    put(image, page.saturating_mul(PAGE), &octets);
    Ok(page.saturating_add(pages))
}

// Writes the records of a run.
fn put_run(alloc: Global, image: &mut [u8], run: &Run) -> Result<(), AllocError> {
    let mut page = usize::from(run.block)
        .saturating_mul(PAGE)
        .saturating_add(run.page);
    let mut number = run.number;
    let mut time = run.time;
    for _ in 0..run.count {
        page = put_record(alloc, image, page, time, number, run.length)?;
        number = number.wrapping_add(1);
        time = time.saturating_add(1);
    }
    Ok(())
}

/// The image of a device: the roots, the journal, and the records. All else is 255.
pub(super) fn image_of(
    alloc: Global,
    plan: &Plan,
    rows: &[StoreRow],
    runs: &[Run],
) -> Result<Vec<u8>, AllocError> {
    let mut image = vec![in alloc; 255u8; BLOCK.saturating_mul(usize::from(plan.blocks))]?;
    let octets: &mut [u8] = &mut image;
    for (block, generation) in plan.generations.iter().enumerate() {
        put_root(octets, block, plan.blocks, *generation);
    }
    let text = checkpoint(alloc, plan, rows)?;
    for (half, is_written) in plan.halves.iter().enumerate() {
        if *is_written {
            let first = if half == 0 { 768 } else { 1280 };
            put_half(octets, first, &text, plan.entries);
        }
    }
    for run in runs {
        put_run(alloc, octets, run)?;
    }
    Ok(image)
}
