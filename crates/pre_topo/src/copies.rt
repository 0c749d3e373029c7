ghost use Rattle.std.specs.Prelude.{◌≡◌, IfOk, Some};
ghost use Rattle.toml.specs.View.{table_view};
ghost use Rattle.pre_table.specs.declared.rows.Unread.{Unread};
ghost use Rattle.pre_topo.specs.Seen.{node_seen, link_seen};
ghost use Rattle.pre_topo.specs.Raw.{node_of, link_of};

use crate::fields::{LinkFields, NodeFields, link_fields, node_fields};
use crate::raw::{RawLink, RawNode};
use pre_base::Name;
use pre_table::{Row, Unread};
use std::alloc::{AllocError, Global};
use toml::Table;

fn node_copied(alloc: Global, fields: &NodeFields) -> Result<RawNode, AllocError>
    ensures { IfOk result (λ node. node ≡ node_seen fields.now) }
{
    Ok(RawNode {
        name: Name::copied(alloc, fields.name)?,
        kind: Name::copied(alloc, fields.kind)?,
        latency: fields.latency,
    })
}

fn link_copied(alloc: Global, fields: &LinkFields) -> Result<RawLink, AllocError>
    ensures { IfOk result (λ link. link ≡ link_seen fields.now) }
{
    Ok(RawLink {
        first: Name::copied(alloc, fields.first)?,
        second: Name::copied(alloc, fields.second)?,
        cost: fields.cost,
        delay: fields.delay,
        mode: Name::copied(alloc, fields.mode)?,
        policy: Name::copied(alloc, fields.policy)?,
        add_frag: fields.add_frag,
        rings: fields.rings,
        express_from: fields.express_from,
        largest: fields.largest,
    })
}

impl Row for RawNode {
    ghost use Rattle.pre_topo.specs.Raw.{node_of};

    ghost reads = { node_of };

    fn read(alloc: Global, table: &Table) -> Result<RawNode, Unread> {
        match node_fields(table) {
            None => Err(Unread::Field),
            Some(fields) => match node_copied(alloc, &fields) {
                Ok(node) => Ok(node),
                Err(_) => Err(Unread::Memory),
            },
        }
    }
}

impl Row for RawLink {
    ghost use Rattle.pre_topo.specs.Raw.{link_of};

    ghost reads = { link_of };

    fn read(alloc: Global, table: &Table) -> Result<RawLink, Unread> {
        match link_fields(table) {
            None => Err(Unread::Field),
            Some(fields) => match link_copied(alloc, &fields) {
                Ok(link) => Ok(link),
                Err(_) => Err(Unread::Memory),
            },
        }
    }
}
