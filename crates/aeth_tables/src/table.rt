// The tables of a use case.
use aeth_base::UseId;
use aeth_ni::ChannelRow;
use aeth_server::ChannelShape;
use std::marker::Model;

/// The tables of the network interfaces in a use case: a row for each of its channels, in channel
/// order, and beside each row the shape of its channel.
#[derive(Drop)]
pub struct Tables {
    pub uses: UseId,
    pub rows: Vec<ChannelRow>,
    pub shapes: Vec<ChannelShape>,
}

impl Model for Tables {
    ghost use Rattle.aeth_tables.specs.Tables.{TablesData};

    ghost Value = { TablesData };

    ghost view = { λ tables. record {
      uses = tables.uses;
      rows = tables.rows.items;
      shapes = tables.shapes.items;
    } };
}
