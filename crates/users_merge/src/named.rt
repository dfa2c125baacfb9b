//! What has a name, and what has an id.
ghost use Rattle.std.specs.Prelude.{◌≡◌, List, ℕ};

use account_text::{GroupRow, PasswdRow, ShadowRow};
use id_memory::IdRow;
use switch_names::Text;
use users_spec::{GroupSpec, UserSpec};

/// What has a name.
pub trait Named {
    /// The name that it has.
    ghost name_of: { Self → List ℕ };

    /// The name.
    fn name(&self) -> &Text
        ensures { result.now ≡ name_of self.now };
}

/// What has an id.
pub trait Numbered {
    /// The id that it has.
    ghost id_of: { Self → ℕ };

    /// The id.
    fn id(&self) -> u32
        ensures { result ≡ id_of self.now };
}

impl Named for Text {
    ghost name_of = { λ name. name };

    fn name(&self) -> &Text {
        self
    }
}

impl Named for GroupRow {
    ghost name_of = { λ row. row.name };

    fn name(&self) -> &Text {
        &self.name
    }
}

impl Named for PasswdRow {
    ghost name_of = { λ row. row.name };

    fn name(&self) -> &Text {
        &self.name
    }
}

impl Named for ShadowRow {
    ghost name_of = { λ row. row.name };

    fn name(&self) -> &Text {
        &self.name
    }
}

impl Named for GroupSpec {
    ghost name_of = { λ group. group.name };

    fn name(&self) -> &Text {
        &self.name
    }
}

impl Named for UserSpec {
    ghost name_of = { λ user. user.name };

    fn name(&self) -> &Text {
        &self.name
    }
}

impl Named for IdRow {
    ghost name_of = { λ row. row.name };

    fn name(&self) -> &Text {
        &self.name
    }
}

impl Numbered for IdRow {
    ghost id_of = { λ row. row.id };

    fn id(&self) -> u32 {
        self.id
    }
}

impl Numbered for GroupRow {
    ghost id_of = { λ row. row.gid };

    fn id(&self) -> u32 {
        self.gid
    }
}

impl Numbered for PasswdRow {
    ghost id_of = { λ row. row.uid };

    fn id(&self) -> u32 {
        self.uid
    }
}
