mod messages;
mod readings;
mod refusals;
