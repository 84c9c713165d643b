// Sets of pairs in room that was taken before.
ghost use Rattle.std.specs.Prelude.{◌≡◌};
ghost use Rattle.tc_mat.specs.Matrix.{IsMatrix, IsIdentity};

use tc_mat::Mat;

/// Leaves the pairs of each number with itself.
pub(crate) fn put_identity(out: &mut Mat)
    ensures size { out.new.size ≡ out.old.size }
    ensures matrix { IsMatrix out.new }
    ensures pairs { IsIdentity out.new }
{
    out.clear();
    let count = out.size();
    for i in 0..count {
        out.set(i, i);
    }
}
