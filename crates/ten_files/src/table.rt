//! The table of open files (IEEE 1364-2005, clauses 17.2.1, 17.2.4 and 17.2.8).

ghost use Rattle.std.specs.Prelude.{◌≡◌, ◌≤◌, ◌<◌, ◌-◌, ◌^◌, List, [], length, Some, option_map, slice_get, slice_set, unwrap_or};
ghost use Rattle.vl_base.specs.declared.files.File.{File};
ghost use Rattle.vl_base.specs.Files as f;
ghost use Rattle.vl_base.specs.Value.{truth};
ghost use Rattle.ten_files.specs.Tables.{bytes_at, name_at, open_files, open_row, row_of, IsTableOf};

use crate::reading::{after_read, bytes_left, first_bytes, with_bytes};
use crate::row::Row;
use crate::slots::{close_row, descriptor, find_row, free_slot};
use std::marker::Model;
use vl_base::bits::Bits;
use vl_base::files::FileSet;
use vl_base::items::Text;

/// The files that a tenant has open, at most 16, each by its number in the set of the tenant's files. Contracts see the row of
/// each slot, from 0; slot 0 has the descriptor 32'h8000_0003.
#[derive(Drop)]
pub struct Table {
    rows: [Option<Row>; 16],
}

impl Model for Table {
    ghost use Rattle.std.specs.Prelude.{List, Option};
    ghost use Rattle.ten_files.specs.declared.row.Row.{Row};

    ghost Value = { List (Option Row) };

    ghost view = { λ t. t.rows };
}

impl Table {
    /// A table without open files.
    pub fn new() -> Table
        ensures none { (files : List File) → open_files files result ≡ [] }
        ensures fits { (files : List File) → IsTableOf files result }
    {
        Table { rows: [None; 16] }
    }

    /// Opens a file of a set by its number, at its start, and gives the lowest free descriptor; 0 where none is free.
    fn open_number(&mut self, file: u32) -> u32
        ensures table { (files : List File) → open_files files self.new ≡ (f.opened_at (open_files files self.old) (name_at files file) (f.free_slot (open_files files self.old))).table }
        ensures answer { (files : List File) → result ≡ (f.opened_at (open_files files self.old) (name_at files file) (f.free_slot (open_files files self.old))).answer }
        ensures fits { (files : List File) → file < length files → IsTableOf files self.old → IsTableOf files self.new }
    {
        match free_slot(&self.rows) {
            None => 0,
            Some(slot) => {
                self.rows[slot] = Some(Row {
                    file,
                    place: 0,
                    ended: false,
                });
                descriptor(slot)
            }
        }
    }

    /// Opens a file at its start, and gives the lowest free descriptor; 0 where the set has no file of the name or none is free.
    pub fn open_file(&mut self, files: &FileSet, name: &Text) -> u32
        requires { IsTableOf files.now self.old }
        ensures table { open_files files.now self.new ≡ (f.opened files.now (open_files files.now self.old) name.now).table }
        ensures answer { result ≡ (f.opened files.now (open_files files.now self.old) name.now).answer }
        ensures fits { IsTableOf files.now self.new }
    {
        match files.number(name) {
            None => 0,
            Some(file) => self.open_number(file),
        }
    }

    /// Reads the file of a descriptor to a variable: its new value, and how many bytes were read. They are as many as the
    /// variable has, the first at the top; fewer at the end of the file; none where the descriptor isn't open.
    pub fn read(&mut self, files: &FileSet, fd: u32, bits: Bits) -> (Bits, u32)
        requires { IsTableOf files.now self.old }
        ensures table { open_files files.now self.new ≡ (f.read files.now (open_files files.now self.old) fd bits.width bits.value).table }
        ensures value { result.0.value ≡ (f.read files.now (open_files files.now self.old) fd bits.width bits.value).value }
        ensures width { result.0.width ≡ bits.width }
        ensures count { result.1 ≡ (f.read files.now (open_files files.now self.old) fd bits.width bits.value).count }
        ensures fits { IsTableOf files.now self.new }
    {
        match find_row(&self.rows, fd) {
            None => (bits, 0),
            Some((slot, row)) => {
                let size = (bits.width as usize + 7) / 8;
                let got = first_bytes(bytes_left(files, row), size);
                self.rows[slot] = Some(after_read(row, got.len(), size));
                (with_bytes(bits, got), got.len() as u32)
            }
        }
    }

    /// Reads the next byte of the file of a descriptor. None at the end of the file, and where the descriptor isn't open.
    pub fn getc(&mut self, files: &FileSet, fd: u32) -> Option<u8>
        requires { IsTableOf files.now self.old }
        ensures table { open_files files.now self.new ≡ (f.next_character files.now (open_files files.now self.old) fd).table }
        // -1 stands for none.
        ensures answer { unwrap_or result (2 ^ 32 - 1) ≡ (f.next_character files.now (open_files files.now self.old) fd).answer }
        ensures fits { IsTableOf files.now self.new }
    {
        match find_row(&self.rows, fd) {
            None => None,
            Some((slot, row)) => {
                let got = first_bytes(bytes_left(files, row), 1);
                self.rows[slot] = Some(after_read(row, got.len(), 1));
                got.first().copied()
            }
        }
    }

    /// A read of the file of a descriptor was short or met the end, or the descriptor isn't open.
    pub fn at_end(&self, fd: u32) -> bool
        ensures { (files : List File) → truth result ≡ f.at_end (open_files files self.now) fd }
    {
        match find_row(&self.rows, fd) {
            None => true,
            Some((_, row)) => row.ended,
        }
    }

    /// Closes the file of a descriptor; nothing where it isn't open.
    pub fn close(&mut self, fd: u32)
        ensures table { (files : List File) → open_files files self.new ≡ f.closed (open_files files self.old) fd }
        ensures fits { (files : List File) → IsTableOf files self.old → IsTableOf files self.new }
    {
        close_row(&mut self.rows, fd);
    }

    /// The file's number, the place and the end flag of a slot below 16. None exactly where the slot isn't open.
    pub fn row(&self, slot: u8) -> Option<(u32, u64, bool)>
        requires { slot < 16 }
        ensures row { slice_get self.now slot ≡ Some (option_map row_of result) }
        ensures file { (files : List File) → f.open_file (open_files files self.now) (f.descriptor slot) ≡ option_map (λ told. open_row files slot (row_of told)) result }
        ensures slots { length self.now ≡ 16 }
    {
        match self.rows[slot as usize] {
            None => None,
            Some(row) => Some((row.file, row.place, row.ended)),
        }
    }

    /// Opens a slot below 16 so: the number of a file of the set, a place that isn't past its end, and the end flag.
    pub fn set_row(&mut self, files: &FileSet, slot: u8, file: u32, place: u64, ended: bool)
        requires slot { slot < 16 }
        requires file { file < length files.now }
        requires place { place ≤ length (bytes_at files.now file) }
        requires fits { IsTableOf files.now self.old }
        ensures row { self.new ≡ slice_set self.old slot (Some (row_of (file, place, ended))) }
        ensures table { open_files files.now self.new ≡ f.with_file (open_row files.now slot (row_of (file, place, ended))) (f.closed (open_files files.now self.old) (f.descriptor slot)) }
        ensures fits { IsTableOf files.now self.new }
    {
        self.rows[slot as usize] = Some(Row { file, place, ended });
    }
}
