// What is wrong with sections and connections.
use thiserror::Error;

/// Why lists are no sections or connections. Sections, trains, places and connections go by number, counted from 0.
#[derive(Clone, Copy, Debug, Error)]
pub enum MarkRefused {
    /// More than 64 sections.
    #[error("there are {count} sections; at most 64 are allowed")]
    TooMany {
        count: usize,
    },
    /// A limit above the greatest.
    #[error("section {section}: the limit {value} is too large")]
    Limit {
        section: u32,
        value: u32,
    },
    /// The first train without one change per place; with a list too many, the number of trains.
    #[error("section {section}, train {train}: there isn't one change per place")]
    Count {
        section: u32,
        train: u32,
    },
    /// A change that no train may make.
    #[error("section {section}, train {train}, place {place}: the change {value} is too large, up or down")]
    Step {
        section: u32,
        train: u32,
        place: u32,
        value: i32,
    },
    /// A share that no train may have.
    #[error("section {section}, train {train}, place {place}: the share {value} is below 0 or too large")]
    Share {
        section: u32,
        train: u32,
        place: u32,
        value: i32,
    },
    /// More than 32 connections.
    #[error("there are {count} connections; at most 32 are allowed")]
    Connections {
        count: usize,
    },
    /// A connection of a train that there isn't, or of a train with itself.
    #[error("connection {connection}: a train doesn't exist, or both are the same")]
    ConnectionTrain {
        connection: u32,
    },
    /// A connection at a place that its train can't leave, or that waits for one that the other can't reach.
    #[error("connection {connection}: its train can't leave the one place, or the other train can't reach the other")]
    ConnectionPlace {
        connection: u32,
    },
}
