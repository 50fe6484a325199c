ghost use Rattle.std.specs.Prelude.{◌≡◌, OnOk};
ghost use Rattle.svr_gen.specs.Layout.{followed};
ghost use Rattle.svr_gen.specs.Requests.{schema, tables};

use crate::writer::Writer;
use svr_edge::Memory;

/// The tables of the schema.
fn put_tables(writer: &mut Writer) -> Result<(), Memory>
    ensures { OnOk result (writer.new ≡ followed writer.old tables) }
{
    writer.put(
        b"{\"name\":\"movies\",\"columns\":[{\"name\":\"id\",\"type\":\"int\"},{\"name\":\"title\",\"type\":\"text\"}]},",
    )?;
    writer.put(
        b"{\"name\":\"reviews\",\"columns\":[{\"name\":\"id\",\"type\":\"int\"},{\"name\":\"movie\",\"type\":\"int\"},",
    )?;
    writer.put(b"{\"name\":\"stars\",\"type\":\"int\"}]},")?;
    writer.put(
        b"{\"name\":\"visits\",\"columns\":[{\"name\":\"id\",\"type\":\"int\"},{\"name\":\"movie\",\"type\":\"int\"},",
    )?;
    writer.put(b"{\"name\":\"hits\",\"type\":\"int\"}]}")
}

/// The request that sets the schema.
pub(crate) fn put_schema(writer: &mut Writer) -> Result<(), Memory>
    ensures { OnOk result (writer.new ≡ followed writer.old schema) }
{
    writer.put(b"{\"op\":\"schema\",\"schema\":{\"tables\":[")?;
    put_tables(writer)?;
    writer.put(b"],\"text\":{\"table\":\"movies\",\"column\":\"title\"},\"components\":[")?;
    writer.put(
        b"{\"kind\":\"avg\",\"table\":\"reviews\",\"by\":\"movie\",\"column\":\"stars\",\"weight\":200,\"empty\":0},",
    )?;
    writer.put(
        b"{\"kind\":\"sum\",\"table\":\"visits\",\"by\":\"movie\",\"column\":\"hits\",\"weight\":1}",
    )?;
    writer.put(b"],\"divisor\":2,\"method\":{\"kind\":\"chunk\",\"ratio\":200,\"min_docs\":4}}}\n")
}
