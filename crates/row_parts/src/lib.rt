// The parts of a term record, as both rows take them.
#![tactic(auto)]

ghost use Rattle.std.specs.Prelude.{◌≡◌, OnOk, IfErr, is_ok};
ghost use Rattle.row_rules.specs.declared.Cause.TheVariants.{Below};
ghost use Rattle.row_answer.specs.Arguments.{column_number};
ghost use Rattle.row_answer.specs.Args.{SameArgs};
ghost use Rattle.row_parts.specs.Site.{PartsJudgedAsk, PartsJudgedIs};

use reader::TermRecord;
use record::kinds::TermKind;
use row_answer::arguments::{Args, Column, all_judged};
use row_rules::Cause;

// Writes the store numbers of the sorts of the record's arguments into `args`, by their rows in a column; Below where one of
// these rows is refused, or for a ParamOp (11) that of an index term.
pub fn parts_judged(
    sheet: &[u8],
    rows: &[u32],
    column: Column,
    term: TermRecord,
    args: &mut Args<'_>,
) -> Result<(), Cause>
    requires { PartsJudgedAsk sheet.now rows.now (column_number column) term args.old.bytes.now }
    ensures same { SameArgs args.old args.new }
    ensures count { OnOk result (args.new.count ≡ term.list.count) }
    ensures cause { IfErr result (λ e. e ≡ Below) }
    ensures parts { PartsJudgedIs sheet.now rows.now (column_number column) term args.new.bytes.now (is_ok result) }
{
    args.gather(sheet, term.list, rows, column)?;
    if term.kind == TermKind::ParamOp && !all_judged(sheet, term.second, rows, column) {
        return Err(Cause::Below);
    }
    Ok(())
}
