mod documents;
mod messages;
