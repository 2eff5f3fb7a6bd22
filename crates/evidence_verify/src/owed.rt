ghost use Rattle.std.specs.Prelude.{◌≤◌, length};

use crate::stamps::Checked;
use hash_kit::HashValue;

/// A time-stamp, and the values that it has to cover.
#[derive(Drop)]
pub(crate) struct Owed<'r, 'a> {
    pub stamp: Checked<'r, 'a>,
    pub values: Vec<HashValue>,
    pub ghost few: { length values.items ≤ 64 },
}
