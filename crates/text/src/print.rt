// Printing a number and the byte behind it.
ghost use Rattle.std.specs.Prelude.{◌+◌, ◌≤◌, length};
ghost use Rattle.decimal.specs.Prints.{Grows};
ghost use Rattle.text.specs.Text.{field, max_field};

use decimal::print::Page;

// A number, and the byte behind it.
#[tactic(auto, using(decimal::proofs::DecimalLaws::digits_most))]
pub fn put_field(page: &mut Page<'_>, v: usize, behind: u8)
    requires { page.old.end + max_field ≤ length page.old.buffer.now }
    ensures { (page.new.end ≤ page.old.end + max_field) × Grows page.old page.new (field v behind) }
{
    page.put_decimal(v);
    page.put_byte(behind);
}
