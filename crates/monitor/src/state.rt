// A monitor over a book that is lent to it.
ghost use Rattle.std.specs.Prelude.{ℕ, T, None, slice_index_or};
ghost use Rattle.monitor.specs.Modest.{modest};

use crate::fixed::Fixed;
use crate::inner::Inner;

#[derive(Drop)]
pub struct Monitor<'b, 't, B> {
    pub(crate) book: &'b mut B,
    pub(crate) fixed: Fixed<'t>,
    pub(crate) inner: Inner,
    ghost modest: { (k : ℕ) → T (modest (slice_index_or inner.tickets k None)) },
}
