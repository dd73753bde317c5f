// The tables that are lent for the reading of a sheet.
ghost use Rattle.std.specs.Prelude.{◌≡◌, length};

// Lent tables, each of its length and with any content: the store number of each sort of the sheet, where each of its term
// and question records starts, and room for a record.
#[derive(Drop)]
pub struct SheetTables<'a> {
    pub table: &'a mut [u16],
    pub terms: &'a mut [u16],
    pub questions: &'a mut [u16],
    pub scratch: &'a mut [u8],
    pub ghost many_sorts: { length table.now ≡ 2048 },
    pub ghost many_terms: { length terms.now ≡ 4096 },
    pub ghost many_questions: { length questions.now ≡ 1024 },
    pub ghost room: { length scratch.now ≡ 266 },
}
