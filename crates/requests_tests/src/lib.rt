// Lists of requests over every make of store and layers over them, against a plain search that knows no store.
#![tactic(auto)]

#[cfg(test)]
mod agreement;
#[cfg(test)]
mod circuits;
#[cfg(test)]
mod jobs;
#[cfg(test)]
mod makes;
#[cfg(test)]
mod random;
#[cfg(test)]
mod rooms;
#[cfg(test)]
mod scripts;
#[cfg(test)]
mod search;
#[cfg(test)]
mod turns;
