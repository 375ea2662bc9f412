//! The column of a document: flat types are read as their plain tree, nested ones as values first.

ghost use Rattle.std.specs.List.{list_all};
ghost use Rattle.std.specs.Prelude.{◌≡◌, IfOk, nat_le};
ghost use Rattle.serde_json.specs.View.{view, items_view};
ghost use Rattle.vx_base.specs.Answers.{Answers};
ghost use Rattle.vx_base.specs.TypeOf.{type_of};
ghost use Rattle.vx_model.specs.Column.{IsColumn, column_of};
ghost use Rattle.vx_model.specs.Extents.{counts, row_limit};
ghost use Rattle.vx_model.specs.Plain.{plain, IsPlain};
ghost use Rattle.vx_document.specs.Reading.{Gives, all_by};
ghost use Rattle.vx_document.specs.RowsOf.{row_of, rows_of};

use crate::document::cells::read_cells;
use crate::document::flat::read_flat;
use crate::document::unread::Unread;
use serde_json::Value as Json;
use std::alloc::Global;
use std::marker::Model;
use vx_array::{ArrayRef, counts_fit};
use vx_base::{DType, Value, VortexResult};

// Rows as they are read. Values wait until their counts are known to fit, since a short document can name a huge tree.
#[derive(Drop)]
enum ReadRows {
    // The plain tree of a flat type.
    Plain(ArrayRef),
    // A nested type, and values that fit it.
    Values(DType, Vec<Value>),
}

/// The column of a document. Contracts see it as its type and its rows.
pub struct DocumentColumn {
    rows: ReadRows,
}

impl Model for DocumentColumn {
    ghost use Rattle.vx_model.specs.Column.{Column};
    ghost use Rattle.vx_document.specs.ReadColumn.{column_read, column_code, IsHeld};

    ghost Value = { Column };

    ghost coded = { column_code };

    ghost view = { λ a. column_read a.rows };

    ghost invariant = { λ a. IsHeld a.rows };
}

impl Drop for DocumentColumn {
    fn drop(self) {
        let DocumentColumn { rows: _ } = self;
    }
}

impl DocumentColumn {
    /// Whether the column and each nested one are within the row limit, 2^31 rows. No tree is made.
    #[tactic(auto, using(crate::proofs::ReadColumns::counting))]
    pub fn counts_fit(&self) -> bool
        ensures { result ≡ list_all (λ count. nat_le count row_limit) (counts self.now.dtype self.now.values) }
    {
        match &self.rows {
            ReadRows::Plain(tree) => tree.extents_fit(),
            ReadRows::Values(dtype, values) => counts_fit(dtype, values.as_slice(), 1),
        }
    }

    /// Does nothing; its contract tells a caller's proof that each value fits the type.
    pub fn known(&self)
        ensures { IsColumn self.now }
    {
        if let ReadRows::Plain(tree) = &self.rows {
            tree.known();
        }
    }

    /// The plain tree of the column. Refuses NoMemory alone. The column is not handed back: its values move into the tree
    /// as it is made.
    pub fn into_plain(self, alloc: Global) -> VortexResult<ArrayRef>
        ensures tree { Answers result (plain self) }
        ensures plain { IfOk result (λ tree. IsPlain tree) }
        ensures kept { IfOk result (λ tree. column_of tree ≡ self) }
    {
        let DocumentColumn { rows } = self;
        match rows {
            ReadRows::Plain(tree) => Ok(tree),
            ReadRows::Values(dtype, values) => ArrayRef::of_values(alloc, &dtype, values),
        }
    }
}

// The column with the rows of a list, each read by the type.
#[tactic(auto, using(crate::proofs::FlatColumns::reads))]
fn read_list(alloc: Global, list: Vec<Json>, dtype: DType) -> Result<DocumentColumn, Unread>
    ensures rows { Gives (λ column. column.values) result (all_by (row_of (type_of dtype)) (items_view list.items)) }
    ensures dtype { IfOk result (λ column. column.dtype ≡ type_of dtype) }
{
    if dtype.is_flat() {
        let tree = read_flat(alloc, list, &dtype)?;
        return Ok(DocumentColumn {
            rows: ReadRows::Plain(tree),
        });
    }
    let values = read_cells(alloc, list, &dtype)?;
    Ok(DocumentColumn {
        rows: ReadRows::Values(dtype, values),
    })
}

// The column with the rows of a JSON value, which has to be a list.
#[tactic(auto, unfolding(crate::specs::RowsOf::rows_of))]
pub(crate) fn read_column(alloc: Global, json: Json, dtype: DType) -> Result<DocumentColumn, Unread>
    ensures rows { Gives (λ column. column.values) result (rows_of (type_of dtype) (view json)) }
    ensures dtype { IfOk result (λ column. column.dtype ≡ type_of dtype) }
{
    match json {
        Json::Array(list) => read_list(alloc, list, dtype),
        _ => Err(Unread::BadDocument),
    }
}
